// What the calls do to the order rows: each of the house's rows becomes what a function makes of it, and
// later rows stay as they are.
ghost use Rattle.std.specs.Prelude.{◌≡◌, true, not, position};
ghost use Rattle.std.specs.List.{All, list_any, list_all};
ghost use Rattle.books.specs.Calls.{own_standing, cancelled};
ghost use Rattle.books.specs.Clearing.{booked, bookable};
ghost use Rattle.books.specs.Money.{};
ghost use Rattle.books.specs.Rowwork.{Takes, Makes};
ghost use Rattle.books.specs.State.{with_lots, over_house, emptied};
ghost use Rattle.matching.specs.Rows.{house_rows, used};

use matching::proposals::Fill;
use matching::rows::{Row, house_rows};

// Makes of each of the house's rows what the closure makes of it. The rows are gone over by index: after
// `iter_mut` nothing would be known of what was written.
fn change_rows<C: Copy, F: Fn(&Row<C>) -> Row<C>>(rows: &mut [Row<C>], change: F)
    requires { All (Takes F.Fn change) (house_rows rows.old) }
    ensures { (becomes : Row C → Row C) → Makes F.Fn change becomes → rows.new ≡ over_house becomes rows.old }
{
    let n = house_rows(rows).len();
    for i in 0..n {
        let row = rows[i];
        rows[i] = change(&row);
    }
}

// The row with other lots, and all else as it is.
fn with_lots<C: Copy>(row: &Row<C>, open: u16, filled: u16) -> Row<C>
    ensures { result ≡ with_lots row.now «open» filled }
{
    Row {
        open,
        filled,
        ..*row
    }
}

// Takes every lot out of the house's rows.
pub fn empty_rows<C: Copy>(rows: &mut [Row<C>])
    ensures { rows.new ≡ over_house emptied rows.old }
{
    change_rows(rows, |row| with_lots(row, 0, 0));
}

// Is this the member's own standing order with the number?
pub fn is_own<C>(row: &Row<C>, member: u64, number: u64) -> bool
    ensures { result ≡ own_standing member number row.now }
{
    row.is_standing() && u64::from(row.order) == number && u64::from(row.member) == member
}

// Does some row hold it?
pub fn own_among<C>(rows: &[Row<C>], member: u64, number: u64) -> bool
    ensures { result ≡ list_any (own_standing member number) rows.now }
{
    rows.iter().any(|row| is_own(row, member, number))
}

// The row once the member has cancelled the order.
fn row_cancelled<C: Copy>(row: &Row<C>, member: u64, number: u64) -> Row<C>
    ensures { result ≡ cancelled member number row.now }
{
    if is_own(row, member, number) {
        with_lots(row, 0, row.filled)
    } else {
        *row
    }
}

// Takes the open lots out of the member's order; its filled lots stay.
pub fn cancel_rows<C: Copy>(rows: &mut [Row<C>], member: u64, number: u64)
    ensures { rows.new ≡ over_house (cancelled member number) rows.old }
{
    change_rows(rows, |row| row_cancelled(row, member, number));
}

// The row once its fill is booked: the lots move from open to filled.
fn row_booked<C: Copy>(row: &Row<C>, fills: &[Fill]) -> Row<C>
    requires { bookable fills.now row.now ≡ true }
    ensures { result ≡ booked fills.now row.now }
{
    let lots = row.given_lots(fills) as u16;
    with_lots(row, row.open - lots, row.filled + lots)
}

// Moves every fill from open to filled.
pub fn book_rows<C: Copy>(rows: &mut [Row<C>], fills: &[Fill])
    requires { list_all (bookable fills.now) (house_rows rows.old) ≡ true }
    ensures { rows.new ≡ over_house (booked fills.now) rows.old }
{
    change_rows(rows, |row| row_booked(row, fills));
}

// The first of the house's rows that is unused.
pub fn first_unused<C>(rows: &[Row<C>]) -> Option<usize>
    ensures { result ≡ position (λ row. not (used row)) (house_rows rows.now) }
{
    house_rows(rows).iter().position(|row| !row.is_used())
}
