// What the calls change in the books. The tests that come before are the house's.
ghost use Rattle.std.specs.Prelude.{◌≡◌, ◌<◌, length};
ghost use Rattle.books.specs.Calls.{with_rows, cancelled, placed_at};
ghost use Rattle.books.specs.Publishing.{is_owed, published};
ghost use Rattle.books.specs.State.{shape, over_house};

use crate::ledger::Books;
use crate::rowwork::cancel_rows;
use matching::rows::Row;

impl<'a, C: Copy> Books<'a, C> {
    // The open lots of the member's order become 0. The member comes by number, as rows name it.
    pub fn cancel(&mut self, member: u64, number: u64)
        ensures value { shape self.new ≡ with_rows (shape self.old) (shape self.old).orders (over_house (cancelled member number) (shape self.old).rows) }
        ensures named { self.new.rows.ghost_name ≡ self.old.rows.ghost_name }
    {
        cancel_rows(self.rows, member, number);
    }

    // A new order in the row at `k`, under the next number, whichever number it comes with.
    pub fn place(&mut self, k: usize, row: Row<C>)
        requires within { k < length self.old.rows.now }
        requires next { self.old.orders < 999999 }
        ensures value { shape self.new ≡ placed_at (shape self.old) k row }
        ensures named { self.new.rows.ghost_name ≡ self.old.rows.ghost_name }
    {
        let order = self.orders + 1;
        self.rows[k] = Row { order, ..row };
        self.orders = order;
    }
}

impl<'a, C> Books<'a, C> {
    // Is a report owed here to a token with these numbers?
    pub fn owes(&self, house: u16, clearing: u32) -> bool
        ensures { result ≡ is_owed (shape self.now) house clearing }
    {
        self.report && house == self.terms.house && clearing == self.latest.clearing
    }

    // The report is no longer owed.
    pub fn published(&mut self)
        ensures value { shape self.new ≡ published (shape self.old) }
        ensures named { self.new.rows.ghost_name ≡ self.old.rows.ghost_name }
    {
        self.report = false;
    }
}
