// The first worked book, and the table of worked books as one theorem.
ghost use Rattle.std.specs.Prelude.{◌≡◌};
ghost use Rattle.matching.specs.WorkedBooks.{WorkedBooks, order, first_book, all_four, first_weights};

use crate::proposals::{Fill, Weight};
use crate::rows::{Row, Side};
use instruments::options::Vanilla;

// The order of a member with its own number, of one lot.
fn one_lot(number: u8, side: Side, contract: Vanilla, price: u32) -> Row<Vanilla>
    ensures { result ≡ order number side contract price 1 0 }
{
    Row {
        order: u32::from(number),
        member: number,
        side,
        contract,
        price,
        open: 1,
        filled: 0,
    }
}

// The orders of the first worked book. Whoever asks for them learns that every row of the table holds.
pub fn worked_orders() -> [Row<Vanilla>; 4]
    ensures table { WorkedBooks }
    ensures orders { result ≡ first_book }
{
    [
        one_lot(1, Side::Buy, Vanilla::Call { strike: 110 }, 9),
        one_lot(2, Side::Buy, Vanilla::Put { strike: 150 }, 42),
        one_lot(3, Side::Sell, Vanilla::Call { strike: 150 }, 1),
        one_lot(4, Side::Sell, Vanilla::Put { strike: 110 }, 6),
    ]
}

// One lot of each of them.
pub fn worked_fills() -> [Fill; 4]
    ensures { result ≡ all_four }
{
    [
        Fill { order: 1, lots: 1 },
        Fill { order: 2, lots: 1 },
        Fill { order: 3, lots: 1 },
        Fill { order: 4, lots: 1 },
    ]
}

// The weights that show that no matching of them is better.
pub fn worked_weights() -> [Weight; 3]
    ensures { result ≡ first_weights }
{
    [
        Weight {
            price: 90,
            weight: 3,
        },
        Weight {
            price: 110,
            weight: 6,
        },
        Weight {
            price: 170,
            weight: 1,
        },
    ]
}
