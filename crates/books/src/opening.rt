// New books.
ghost use Rattle.std.specs.Prelude.{◌≡◌};
ghost use Rattle.books.specs.State.{shape, opened};

use crate::accounts::Accounts;
use crate::answers::Cleared;
use crate::ledger::Books;
use crate::rowwork::empty_rows;
use crate::terms::Terms;
use matching::rows::Row;

impl<'a, C: Copy> Books<'a, C> {
    // All cash and the reserve at 0, and no order in the house's rows.
    pub fn new(terms: Terms, rows: &'a mut [Row<C>]) -> Books<'a, C>
        ensures value { shape result ≡ opened terms.house terms.ceiling.value terms.gap rows.old }
        ensures named { result.rows.ghost_name ≡ rows.entry.ghost_name }
    {
        empty_rows(rows);
        Books {
            terms,
            accounts: Accounts::empty(),
            cash: 0,
            reserve: 0,
            orders: 0,
            latest: Cleared::default(),
            report: false,
            closed: false,
            rows,
        }
    }
}
