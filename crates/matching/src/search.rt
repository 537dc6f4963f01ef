// The search for the largest that a set of legs owes at any price, and the lowest price where it does.
ghost use Rattle.std.specs.Prelude.{◌≡◌, ◌*◌, ◌^◌, ◌≤◌, length, Decides};
ghost use Rattle.std.specs.List.{AllByRecursion};
ghost use Rattle.matching.specs.Candidates.{better_of, at_price, Candidate, Improves, Highest};
ghost use Rattle.matching.specs.Figures.{reserve, worst_price};
ghost use Rattle.matching.specs.Fills.{given};
ghost use Rattle.matching.specs.Legs.{leg_owed, owes, ValidLeg, GoodLeg, leg_with, listed, told_lots, owed_with, request_side};
ghost use Rattle.matching.specs.Quotes.{quote_reserve, quote_worst};
ghost use Rattle.matching.specs.Sums.{AsGood, Small};

use crate::book::Book;
use crate::figures::payoff_owed;
use crate::legs::{Leg, Legs};
use crate::proposals::Fill;
use crate::quotes::{Asked, Request};
use crate::rows::{HOUSE_ROWS, Row, Side};
use instruments::bounds::Ceiling;
use instruments::kind::Contract;

// The most that legs owe, and the lowest price where they do.
#[derive(Clone, Copy, PartialEq, Eq, Debug)]
pub struct Peak {
    pub owed: i128,
    pub price: u32,
}

// The lots that the fills give each row, found once for the whole search.
fn lots_of<C>(rows: &[Row<C>], fills: &[Fill]) -> [u64; HOUSE_ROWS]
    requires { length rows.now ≤ 256 }
    ensures { result ≡ told_lots 256 (given fills.now) rows.now }
{
    let mut lots = [0; HOUSE_ROWS];
    for (i, row) in rows.iter().enumerate() {
        lots[i] = row.given_lots(fills);
    }
    lots
}

fn with_lots<C: Contract>(row: &Row<C>, lots: u64) -> Option<Leg<C>>
    ensures { result ≡ leg_with row.now lots }
{
    if lots > 0 {
        Some(Leg {
            contract: row.contract,
            side: row.side,
            lots,
        })
    } else {
        None
    }
}

// The better of the best so far and one more price.
fn better(best: Peak, next: Peak) -> Peak
    requires best { Small (257 * 2 ^ 96) best.owed }
    requires next { Small (257 * 2 ^ 96) next.owed }
    ensures value { result ≡ better_of best next }
    ensures bound { Small (257 * 2 ^ 96) result.owed }
{
    if best.owed < next.owed {
        return next;
    }
    if next.owed < best.owed {
        return best;
    }
    if next.price < best.price { next } else { best }
}

// What is owed at a price, whatever its sign.
fn reached(owed: i128, price: u32) -> Peak
    ensures { result ≡ record { owed = owed; price = price } }
{
    Peak { owed, price }
}

// What one leg owes at a price.
fn leg_owes<C: Contract>(leg: Option<Leg<C>>, ceiling: Ceiling, price: u64) -> i128
    ensures value { result ≡ leg_owed C.Contract.meaning ceiling.value price leg }
    ensures bound { Small (2 ^ 96) result }
{
    match leg {
        Some(l) => payoff_owed(l.side, l.contract, l.lots, ceiling, price),
        None => 0,
    }
}

// Is the contract of the leg valid? An empty place has none that is not.
fn leg_valid<C: Contract>(leg: Option<Leg<C>>, ceiling: Ceiling) -> bool
    ensures { Decides result (ValidLeg C.Contract.meaning ceiling.value leg) }
{
    match leg {
        Some(l) => l.contract.check(ceiling).is_ok(),
        None => true,
    }
}

impl<'a, C: Contract> Legs<'a, C> {
    // What they owe together at a price.
    fn owe(&self, price: u64) -> i128
        ensures value { result ≡ owes C.Contract.meaning self.now price }
        ensures bound { Small (257 * 2 ^ 96) result }
    {
        let mut sum = leg_owes(self.beside, self.ceiling, price);
        for (row, lots) in self.rows.iter().zip(self.lots) {
            sum += leg_owes(with_lots(row, *lots), self.ceiling, price);
        }
        sum
    }

    // The same, as a candidate.
    fn candidate(&self, price: u32) -> Peak
        requires { price ≤ self.now.ceiling.value }
        ensures stands { Candidate (owes C.Contract.meaning self.now) self.now.ceiling.value result }
        ensures here { result ≡ at_price (owes C.Contract.meaning self.now) price }
    {
        reached(self.owe(u64::from(price)), price)
    }

    // The better of the best so far and what the legs owe at one more price.
    fn tried(&self, best: Peak, price: u32) -> Peak
        requires within { price ≤ self.now.ceiling.value }
        requires stands { Candidate (owes C.Contract.meaning self.now) self.now.ceiling.value best }
        ensures improves { Improves (owes C.Contract.meaning self.now) self.now.ceiling.value best result }
        ensures tries { AsGood (owes C.Contract.meaning self.now) result.price price }
    {
        better(best, self.candidate(price))
    }

    // Tries each breakpoint of one leg.
    fn tried_leg(&self, best: Peak, leg: Option<Leg<C>>) -> Peak
        requires valid { ValidLeg C.Contract.meaning self.now.ceiling.value leg }
        requires stands { Candidate (owes C.Contract.meaning self.now) self.now.ceiling.value best }
        ensures improves { Improves (owes C.Contract.meaning self.now) self.now.ceiling.value best result }
        ensures tries { GoodLeg C.Contract.meaning self.now.ceiling.value (owes C.Contract.meaning self.now) result.price leg }
    {
        let Some(l) = leg else {
            return best;
        };
        let mut best = best;
        // by number, since that is how a kind is asked for its breakpoints
        for i in 0..l.contract.breakpoints(self.ceiling) {
            best = self.tried(best, l.contract.breakpoint(self.ceiling, u64::from(i)));
        }
        best
    }

    // The better of 0 and the ceiling.
    fn at_ends(&self) -> Peak
        ensures value { result ≡ better_of (at_price (owes C.Contract.meaning self.now) 0) (at_price (owes C.Contract.meaning self.now) self.now.ceiling.value) }
        ensures bound { Small (257 * 2 ^ 96) result.owed }
    {
        let low = self.candidate(0);
        let high = self.candidate(self.ceiling.value);
        better(low, high)
    }

    // The peak of legs whose contracts are valid. Between 0, the ceiling and the breakpoints what they owe
    // is straight, so that no other price need be tried.
    fn at_breakpoints(&self) -> Peak
        requires { AllByRecursion (ValidLeg C.Contract.meaning self.now.ceiling.value) (listed self.now) }
        ensures { Highest (owes C.Contract.meaning self.now) self.now.ceiling.value result }
    {
        let mut best = self.tried_leg(self.at_ends(), self.beside);
        for (row, lots) in self.rows.iter().zip(self.lots) {
            best = self.tried_leg(best, with_lots(row, *lots));
        }
        best
    }

    // The peak of any legs: an invalid contract keeps no rule, so every price is tried.
    fn at_every_price(&self) -> Peak
        ensures { Highest (owes C.Contract.meaning self.now) self.now.ceiling.value result }
    {
        let mut best = self.candidate(0);
        for price in 1..=self.ceiling.value {
            best = self.tried(best, price);
        }
        best
    }

    fn all_valid(&self) -> bool
        ensures { Decides result (AllByRecursion (ValidLeg C.Contract.meaning self.now.ceiling.value) (listed self.now)) }
    {
        for (row, lots) in self.rows.iter().zip(self.lots) {
            if !leg_valid(with_lots(row, *lots), self.ceiling) {
                return false;
            }
        }
        leg_valid(self.beside, self.ceiling)
    }

    fn peak(&self) -> Peak
        ensures { Highest (owes C.Contract.meaning self.now) self.now.ceiling.value result }
    {
        if self.all_valid() {
            self.at_breakpoints()
        } else {
            self.at_every_price()
        }
    }
}

// The house would buy what is bid for, so that to it the contract is one that someone sells.
fn side_of(request: Request) -> Side
    ensures { result ≡ request_side request }
{
    match request {
        Request::Bid => Side::Sell,
        Request::Ask => Side::Buy,
    }
}

impl<'a, C: Contract> Book<'a, C> {
    // The peak of what the fills give the rows, with a leg beside them or none.
    fn peak_beside(&self, fills: &[Fill], beside: Option<Leg<C>>) -> Peak
        ensures { Highest (owed_with C.Contract.meaning self.now.ceiling.value self.now.rows.now (given fills.now) beside) self.now.ceiling.value result }
    {
        let rows = self.rows;
        let lots = lots_of(rows, fills);
        let legs = Legs {
            rows,
            lots: &lots,
            beside,
            ceiling: self.ceiling,
        };
        legs.peak()
    }

    // The reserve: the largest that the fills owe at any price, and the lowest price where they do. No fills
    // owe nothing at each price, so that nothing need be tried.
    pub fn reserve(&self, fills: &[Fill]) -> Peak
        ensures owed { result.owed ≡ reserve C.Contract.meaning self.now.ceiling.value self.now.rows.now (given fills.now) }
        ensures price { result.price ≡ worst_price C.Contract.meaning self.now.ceiling.value self.now.rows.now (given fills.now) }
        ensures bound { Small (257 * 2 ^ 96) result.owed }
    {
        if fills.is_empty() {
            return Peak { owed: 0, price: 0 };
        }
        self.peak_beside(fills, None)
    }

    // The reserve with lots of one more contract, bid or asked, beside the fills.
    pub fn reserve_beside(&self, fills: &[Fill], asked: Asked<C>) -> Peak
        ensures owed { result.owed ≡ quote_reserve C.Contract.meaning self.now.ceiling.value self.now.rows.now (given fills.now) asked.contract asked.lots asked.request }
        ensures price { result.price ≡ quote_worst C.Contract.meaning self.now.ceiling.value self.now.rows.now (given fills.now) asked.contract asked.lots asked.request }
        ensures bound { Small (257 * 2 ^ 96) result.owed }
    {
        let leg = Leg {
            contract: asked.contract,
            side: side_of(asked.request),
            lots: asked.lots,
        };
        self.peak_beside(fills, Some(leg))
    }
}
