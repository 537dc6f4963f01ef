// What a clearing asks of the books, and what it changes in them.
ghost use Rattle.std.specs.Prelude.{◌≡◌, ◌*◌, ◌^◌, true, pos, ◌+ℤ◌, int_lt};
ghost use Rattle.std.specs.List.{list_all};
ghost use Rattle.books.specs.Clearing.{bookable, booked_with, paid_members};
ghost use Rattle.books.specs.Money.{cash_in};
ghost use Rattle.books.specs.Sound.{Sound};
ghost use Rattle.books.specs.State.{shape};
ghost use Rattle.matching.specs.Rows.{house_rows};
ghost use Rattle.matching.specs.Sums.{Small};

use crate::accounts::Accounts;
use crate::answers::Cleared;
use crate::ledger::Books;
use crate::payments::pay_for_fills;
use crate::rowwork::book_rows;
use instruments::kind::Contract;
use matching::proposals::Fill;

impl<'a, C: Contract> Books<'a, C> {
    // Is a gap above what is allowed, counted as often as the weights add up to?
    pub fn gap_too_large(&self, gap: i128, weights: u32) -> bool
        ensures { result ≡ int_lt (pos ((shape self.now).allowed * weights)) gap }
    {
        let most = u64::from(self.terms.gap) * u64::from(weights);
        i128::from(most) < gap
    }

    // Would this change leave the house's cash below zero?
    pub fn runs_short(&self, change: i128) -> bool
        requires sound { Sound (shape self.now) }
        requires change { Small (2 ^ 106) change }
        ensures { result ≡ int_lt ((shape self.now).cash +ℤ change) (pos 0) }
    {
        self.cash + change < 0
    }

    // The accounts once the fills are paid for. By itself, since a `&mut self` cannot lend its rows to a reader.
    fn paid_for(&self, fills: &[Fill]) -> Accounts
        requires { Sound (shape self.now) }
        ensures { cash_in result.list ≡ paid_members (shape self.now) fills.now }
    {
        let mut accounts = self.accounts;
        pay_for_fills(&self.book(), fills, &mut accounts);
        accounts
    }

    // Books a clearing: lots, members' cash, the house's cash and reserve, and the report that is owed.
    pub fn book_clearing(&mut self, fills: &[Fill], cash: i128, cleared: Cleared)
        requires sound { Sound (shape self.old) }
        requires fits { list_all (bookable fills.now) (house_rows (shape self.old).rows) ≡ true }
        requires cash { Small (2 ^ 106) cash }
        requires reserve { Small (2 ^ 106) cleared.reserve }
        ensures value { shape self.new ≡ booked_with (shape self.old) fills.now cash cleared }
        ensures named { self.new.rows.ghost_name ≡ self.old.rows.ghost_name }
    {
        let accounts = self.paid_for(fills);
        book_rows(self.rows, fills);
        self.accounts = accounts;
        self.cash += cash;
        self.reserve += cleared.reserve;
        self.latest = cleared;
        self.report = true;
    }
}
