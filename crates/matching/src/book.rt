// The orders of a house under their ceiling, and the figures of a matching that are sums over them.
ghost use Rattle.std.specs.Prelude.{◌≡◌, ℕ, ◌*◌, ◌^◌, ◌≤◌, ℤ, length};
ghost use Rattle.std.specs.Fn.{FnReturnsAt};
ghost use Rattle.matching.specs.Figures.{cash_now, owed, exposure};
ghost use Rattle.matching.specs.Fills.{given};
ghost use Rattle.matching.specs.Rows.{house_rows, held};
ghost use Rattle.matching.specs.Sums.{total, Small};
ghost use Rattle.matching.specs.declared.rows.Row.{Row};

use crate::figures::{row_cash, row_exposed, row_owed};
use crate::proposals::Fill;
use crate::rows::{Row, house_rows};
use instruments::bounds::Ceiling;
use instruments::kind::Contract;

#[derive(Drop)]
pub struct Book<'a, C> {
    pub rows: &'a [Row<C>],
    pub ceiling: Ceiling,
    ghost few: { length rows.now ≤ 256 },
}

impl<'a, C> Book<'a, C> {
    // The rows of a house, of all that are lent to it.
    pub fn of(rows: &'a [Row<C>], ceiling: Ceiling) -> Book<'a, C>
        ensures rows { result.rows.now ≡ house_rows rows.now }
        ensures ceiling { result.ceiling.value ≡ ceiling.value }
    {
        Book {
            rows: house_rows(rows),
            ceiling,
        }
    }

    // The sum of what a closure says of each row.
    pub(crate) fn sum<F: Fn(&Row<C>) -> i128>(&self, figure: F) -> i128
        requires callable { F.IsAlwaysCallable figure }
        requires small { (r : Row C) (z : _) → FnReturnsAt F.Fn figure r z → Small (2 ^ 96) z }
        ensures value { (f : Row C → ℤ) → ((r : Row C) (z : _) → FnReturnsAt F.Fn figure r z → z ≡ f r) → result ≡ total f self.now.rows.now }
        ensures bound { (b : ℕ) → ((r : Row C) (z : _) → FnReturnsAt F.Fn figure r z → Small b z) → Small (256 * b) result }
    {
        let mut sum: i128 = 0;
        for row in self.rows {
            sum += figure(row);
        }
        sum
    }

    // Cash now: what buyers pay less what sellers receive.
    pub fn cash_taken(&self, fills: &[Fill]) -> i128
        ensures value { result ≡ cash_now self.now.rows.now (given fills.now) }
        ensures bound { Small (2 ^ 104) result }
    {
        self.sum(|row| row_cash(row, fills))
    }
}

impl<'a, C: Contract> Book<'a, C> {
    // What the fills owe where the index is fixed at a price.
    pub fn owed_at(&self, fills: &[Fill], price: u64) -> i128
        ensures { result ≡ owed C.Contract.meaning self.now.ceiling.value self.now.rows.now (given fills.now) price }
    {
        self.sum(|row| row_owed(row, fills, self.ceiling, price))
    }

    // What all filled lots owe at a price.
    pub fn exposure_at(&self, price: u64) -> i64
        ensures value { result ≡ exposure C.Contract.meaning self.now.ceiling.value self.now.rows.now price }
        ensures bound { Small (2 ^ 56) result }
    {
        self.sum(|row| i128::from(row_exposed(row, self.ceiling, price))) as i64
    }

    // Held of a member's cash by its orders.
    pub fn held_by(&self, member: u64) -> i64
        ensures { result ≡ held C.Contract.meaning self.now.ceiling.value self.now.rows.now member }
    {
        self.sum(|row| row.held_of(self.ceiling, member)) as i64
    }
}
