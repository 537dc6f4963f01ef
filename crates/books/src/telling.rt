// What the books tell.
ghost use Rattle.std.specs.Prelude.{◌≡◌, ◌^◌};
ghost use Rattle.std.specs.List.{list_any};
ghost use Rattle.books.specs.Calls.{own_standing};
ghost use Rattle.books.specs.Questions.{is_order, lots_of, order_answer, house_answer};
ghost use Rattle.books.specs.Rowwork.{FreeRow};
ghost use Rattle.books.specs.State.{shape};
ghost use Rattle.matching.specs.Figures.{exposure};
ghost use Rattle.matching.specs.Rows.{house_rows, held};
ghost use Rattle.matching.specs.Sums.{Small};

use crate::answers::Standing;
use crate::ledger::Books;
use crate::rowwork::{first_unused, own_among};
use instruments::kind::Contract;
use matching::book::Book;
use matching::rows::{Row, house_rows};

// Is this a used row with the number?
fn is_numbered<C>(row: &Row<C>, number: u64) -> bool
    ensures { result ≡ is_order number row.now }
{
    row.is_used() && u64::from(row.order) == number
}

// The open and filled lots of the used row with the number.
fn find_lots<C>(rows: &[Row<C>], number: u64) -> Option<(u16, u16)>
    ensures { result ≡ lots_of rows.now number }
{
    rows.iter()
        .find(|row| is_numbered(row, number))
        .map(|row| (row.open, row.filled))
}

impl<'a, C> Books<'a, C> {
    // The orders under their ceiling.
    pub fn book(&self) -> Book<'_, C>
        ensures rows { result.rows.now ≡ house_rows (shape self.now).rows }
        ensures ceiling { result.ceiling.value ≡ (shape self.now).top }
    {
        Book::of(self.rows, self.terms.ceiling)
    }

    // The house's own figures.
    pub fn standing(&self) -> Standing
        ensures { result ≡ house_answer (shape self.now) }
    {
        Standing {
            cash: self.cash,
            reserve: self.reserve,
            clearings: self.latest.clearing,
            report_owed: self.report,
        }
    }

    pub fn lots(&self, number: u64) -> Option<(u16, u16)>
        ensures { result ≡ order_answer (shape self.now) number }
    {
        find_lots(house_rows(self.rows), number)
    }

    // Does the member have a standing order with this number?
    pub fn has_own(&self, member: u64, number: u64) -> bool
        ensures { result ≡ list_any (own_standing member number) (house_rows (shape self.now).rows) }
    {
        own_among(house_rows(self.rows), member, number)
    }

    // Some unused row of the house's.
    pub fn free_row(&self) -> Option<usize>
        ensures { FreeRow (house_rows (shape self.now).rows) result }
    {
        first_unused(self.rows)
    }
}

impl<'a, C: Contract> Books<'a, C> {
    // What all filled lots owe at a price.
    pub fn exposed(&self, price: u64) -> i64
        ensures value { result ≡ exposure C.Contract.meaning (shape self.now).top (house_rows (shape self.now).rows) price }
        ensures bound { Small (2 ^ 56) result }
    {
        self.book().exposure_at(price)
    }

    // What a member's orders hold of its cash.
    pub fn held(&self, member: u64) -> i64
        ensures { result ≡ held C.Contract.meaning (shape self.now).top (house_rows (shape self.now).rows) member }
    {
        self.book().held_by(member)
    }
}
