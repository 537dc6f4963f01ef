// Opening a house.
ghost use Rattle.std.specs.Prelude.{◌≡◌};
ghost use Rattle.books.specs.Promise.{Promise};
ghost use Rattle.books.specs.State.{opened};
ghost use Rattle.house.specs.View.{view};

use super::House;
use books::ledger::Books;
use books::terms::Terms;
use instruments::kind::Contract;
use matching::rows::Row;

impl<'a, C: Contract> House<'a, C> {
    // A new house over the rows that are lent: its rows empty, all cash and the reserve at 0. The last
    // clause is the promise over every run of calls from here on.
    pub fn open(terms: Terms, rows: &'a mut [Row<C>]) -> House<'a, C>
        ensures state { view result ≡ opened terms.house terms.ceiling.value terms.gap rows.old }
        ensures named { result.books.rows.ghost_name ≡ rows.entry.ghost_name }
        ensures promise { Promise C.Contract.meaning }
    {
        House {
            books: Books::new(terms, rows),
        }
    }
}
