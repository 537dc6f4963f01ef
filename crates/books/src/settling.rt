// The settlement of the books.
ghost use Rattle.std.specs.Prelude.{◌≡◌, ◌+◌, ◌^◌, true};
ghost use Rattle.std.specs.List.{list_all};
ghost use Rattle.books.specs.Money.{cash_in, at_least, moved};
ghost use Rattle.books.specs.Settling.{paid_out, settled};
ghost use Rattle.books.specs.Sound.{Sound, floor};
ghost use Rattle.books.specs.State.{shape};
ghost use Rattle.matching.specs.Figures.{exposure};
ghost use Rattle.matching.specs.Rows.{house_rows};
ghost use Rattle.matching.specs.Sums.{Small};

use crate::accounts::Accounts;
use crate::ledger::Books;
use crate::payments::pay_out;
use crate::rowwork::empty_rows;
use instruments::kind::Contract;

impl<'a, C: Contract> Books<'a, C> {
    // The accounts once all payoffs are paid, none much lower than before. By itself as `paid_for` is.
    fn paid_out(&self, price: u64) -> Accounts
        requires { Sound (shape self.now) }
        ensures value { cash_in result.list ≡ moved (paid_out C.Contract.meaning (shape self.now).top price (house_rows (shape self.now).rows)) (shape self.now).members }
        ensures low { list_all (at_least (floor (shape self.now) + 2 ^ 56)) (cash_in result.list) ≡ true }
    {
        let mut accounts = self.accounts;
        pay_out(&self.book(), price, &mut accounts);
        accounts
    }

    // Pays every filled lot at the price, empties the rows and closes.
    pub fn settle(&mut self, price: u64)
        requires { Sound (shape self.old) }
        ensures value { shape self.new ≡ settled C.Contract.meaning (shape self.old) price }
        ensures low { list_all (at_least (floor (shape self.old) + 2 ^ 56)) (shape self.new).members ≡ true }
        ensures owed { Small (2 ^ 56) (exposure C.Contract.meaning (shape self.old).top (house_rows (shape self.old).rows) price) }
        ensures named { self.new.rows.ghost_name ≡ self.old.rows.ghost_name }
    {
        let accounts = self.paid_out(price);
        let owed = self.exposed(price);
        empty_rows(self.rows);
        self.accounts = accounts;
        self.cash -= i128::from(owed);
        self.reserve = 0;
        self.closed = true;
    }
}
