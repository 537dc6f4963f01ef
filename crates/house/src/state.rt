// A house: its books, in a state that every call keeps.
ghost use Rattle.books.specs.Sound.{Sound};
ghost use Rattle.books.specs.State.{shape};

use books::ledger::Books;

pub mod clearing;
pub mod listing;
pub mod money;
pub mod opening;
pub mod orders;
pub mod publishing;
pub mod questions;
pub mod quoting;
pub mod settling;

// What the state keeps holds for every kind of contract, and is what exact arithmetic needs in every call.
#[derive(Drop)]
pub struct House<'a, C> {
    books: Books<'a, C>,
    ghost sound: { Sound (shape books) },
}
