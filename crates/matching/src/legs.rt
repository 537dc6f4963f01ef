// Legs, which a search goes over. It cannot hold them in an array, since nothing bounds the size of a kind
// of contract: so they are the rows as they are lent, with the lots of each beside them.
ghost use Rattle.std.specs.Prelude.{◌≤◌, length};

use crate::rows::{Row, Side};
use instruments::bounds::Ceiling;

// Lots of one contract that are bought from or sold to the house.
#[derive(Clone, Copy)]
pub struct Leg<C> {
    pub contract: C,
    pub side: Side,
    pub lots: u64,
}

// The rows of a house with the lots of each, and perhaps one more leg, under a ceiling. A row of no lots is no leg.
#[derive(Drop)]
pub struct Legs<'a, C> {
    pub rows: &'a [Row<C>],
    pub lots: &'a [u64],
    pub beside: Option<Leg<C>>,
    pub ceiling: Ceiling,
    ghost few: { length rows.now ≤ 256 },
    ghost told: { length rows.now ≤ length lots.now },
}
