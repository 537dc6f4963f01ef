// A proposal from the solver: a list of fills and a list of weights, with figures as they arrive, and
// the tests of the fills.
ghost use Rattle.std.specs.Prelude.{◌≡◌, ◌<◌, length};
ghost use Rattle.matching.specs.Fills.{fill_for, lots_for, given, bad_fill, fills_verdict, holds_order, stands, exceeds_row, exceeds, first_not_standing, first_above_open, orders_verdict};

use crate::book::Book;
use crate::rows::Row;
use thiserror::Error;

#[derive(Clone, Copy, PartialEq, Eq, Debug)]
pub struct Fill {
    pub order: u64,
    pub lots: u64,
}

#[derive(Clone, Copy, PartialEq, Eq, Debug)]
pub struct Weight {
    pub price: u64,
    pub weight: u64,
}

// The first fill, by its index, that has no lots or whose order number is not above the one before it.
#[derive(Clone, Copy, PartialEq, Eq, Debug)]
pub struct BadFill {
    pub index: usize,
}

// A fill that the rows refuse, with the number of its order.
#[derive(Clone, Copy, PartialEq, Eq, Debug)]
pub enum FillFault {
    // no standing order has the number
    NotStanding(u64),
    // more lots than the order has open
    AboveOpen(u64),
}

// Why a list of weights is refused.
#[derive(Clone, Copy, PartialEq, Eq, Debug, Error)]
pub enum WeightFault {
    // none, or more than 512: how many
    #[error("{0} weights, not 1 to 512")]
    Count(usize),
    // a price above the ceiling, or a weight above 1,000,000: the first such index
    #[error("the weight at {0} is above 1,000,000, or its price above the ceiling")]
    Entry(usize),
    // they add up to 0, or to more than 1,000,000: how many there are
    #[error("the {0} weights add up to 0 or to more than 1,000,000")]
    Sum(usize),
}

// The first fill of the order with this number.
fn fill_for(fills: &[Fill], number: u64) -> Option<Fill>
    ensures { result ≡ fill_for fills.now number }
{
    fills.iter().copied().find(|fill| fill.order == number)
}

// The lots that the fills give the order with this number.
fn lots_for(fills: &[Fill], number: u64) -> u64
    ensures { result ≡ lots_for fills.now number }
{
    // a `match`, since `map_or` leaves its goal open
    match fill_for(fills, number) {
        Some(fill) => fill.lots,
        None => 0,
    }
}

impl<C> Row<C> {
    // The lots that the fills give the order in the row: only a standing order gets any.
    pub fn given_lots(&self, fills: &[Fill]) -> u64
        ensures { result ≡ given fills.now self.now }
    {
        if self.is_standing() {
            lots_for(fills, u64::from(self.order))
        } else {
            0
        }
    }

    // Does the row hold the standing order with this number?
    fn holds(&self, number: u64) -> bool
        ensures { result ≡ holds_order number self.now }
    {
        self.is_standing() && u64::from(self.order) == number
    }

    // Is the fill of the order in this row, and above its open lots?
    fn is_exceeded_by(&self, fill: &Fill) -> bool
        ensures { result ≡ exceeds_row fill.now self.now }
    {
        self.holds(fill.order) && u64::from(self.open) < fill.lots
    }
}

fn is_bad_fill(fills: &[Fill], i: usize) -> bool
    requires { i < length fills.now }
    ensures { result ≡ bad_fill fills.now i }
{
    let fill = fills[i];
    fill.lots == 0 || i > 0 && fill.order <= fills[i - 1].order
}

// Each fill has lots, and the order numbers rise.
#[tactic(auto, using(crate::proofs::Walks::find_next))]
pub fn check_fills(fills: &[Fill]) -> Result<(), BadFill>
    ensures { result ≡ fills_verdict fills.now }
{
    // by index, since a fill is told from the one before it
    for index in 0..fills.len() {
        if is_bad_fill(fills, index) {
            return Err(BadFill { index });
        }
    }
    Ok(())
}

impl<'a, C> Book<'a, C> {
    fn stands(&self, number: u64) -> bool
        ensures { result ≡ stands self.now.rows.now number }
    {
        self.rows.iter().any(|row| row.holds(number))
    }

    fn is_exceeded_by(&self, fill: &Fill) -> bool
        ensures { result ≡ exceeds self.now.rows.now fill.now }
    {
        self.rows.iter().any(|row| row.is_exceeded_by(fill))
    }

    // The first fill whose order does not stand. It is a function of its own, since a `find` in the middle of
    // another leaves its goal open; so is the next.
    fn first_missing(&self, fills: &[Fill]) -> Option<Fill>
        ensures { result ≡ first_not_standing self.now.rows.now fills.now }
    {
        fills.iter().copied().find(|fill| !self.stands(fill.order))
    }

    // The first fill of more than its order's open lots.
    fn first_above(&self, fills: &[Fill]) -> Option<Fill>
        ensures { result ≡ first_above_open self.now.rows.now fills.now }
    {
        fills.iter().copied().find(|fill| self.is_exceeded_by(fill))
    }

    // The fills against the rows: the first order that does not stand, then the first fill above its
    // order's open lots.
    pub fn check_fills(&self, fills: &[Fill]) -> Result<(), FillFault>
        ensures { result ≡ orders_verdict self.now.rows.now fills.now }
    {
        if let Some(fill) = self.first_missing(fills) {
            return Err(FillFault::NotStanding(fill.order));
        }
        if let Some(fill) = self.first_above(fills) {
            return Err(FillFault::AboveOpen(fill.order));
        }
        Ok(())
    }
}
