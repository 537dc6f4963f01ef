// What one more contract would be quoted at beside a matching.
ghost use Rattle.std.specs.Prelude.{◌≡◌, ◌*◌, ◌^◌, ◌≤◌, pos};
ghost use Rattle.matching.specs.Fills.{given};
ghost use Rattle.matching.specs.Quotes.{quoted, premium_of, gap_of};
ghost use Rattle.matching.specs.Rows.{house_rows};
ghost use Rattle.matching.specs.Sums.{Small};
ghost use Rattle.matching.specs.Weights.{by_weights};

use crate::appraisal::less;
use crate::book::Book;
use crate::products::times_worth;
use crate::proposals::{Fill, Weight, WeightFault};
use crate::rows::Row;
use crate::weights::Weights;
use instruments::bounds::Ceiling;
use instruments::kind::Contract;

#[derive(Clone, Copy, PartialEq, Eq, Debug)]
pub enum Request {
    // someone would sell to the house
    Bid,
    // someone would buy from the house
    Ask,
}

// Lots of one more contract, which someone bids or asks for.
#[derive(Clone, Copy)]
pub struct Asked<C> {
    pub contract: C,
    pub request: Request,
    pub lots: u64,
}

// The premium that the house could pay for a bid or has to take for an ask, what it then owes at worst, the
// lowest price where it owes that, and by how much a rival could quote better, counted as often as the
// weights add up to.
#[derive(Clone, Copy, PartialEq, Eq, Debug)]
pub struct Quote {
    pub premium: i128,
    pub reserve: i128,
    pub worst: u32,
    pub gap: i128,
    pub weights: u32,
}

// Cash less the reserve for a bid, and the other way round for an ask.
fn premium_for(request: Request, cash: i128, reserve: i128) -> i128
    requires cash { Small (257 * 2 ^ 96) cash }
    requires reserve { Small (257 * 2 ^ 96) reserve }
    ensures value { result ≡ premium_of request cash reserve }
    ensures bound { Small (2 ^ 106) result }
{
    match request {
        Request::Bid => less(cash, reserve),
        Request::Ask => less(reserve, cash),
    }
}

// What the lots of the contract are worth under the weights.
fn lots_worth(lots: u64, each: u64) -> i128
    requires { each ≤ 1000000 * 2 ^ 32 }
    ensures value { result ≡ pos (lots * each) }
    ensures bound { Small (2 ^ 116) result }
{
    times_worth(lots, each) as i128
}

fn gap_for(request: Request, bound: i128, worth: i128, premium: i128) -> i128
    requires bound { Small (2 ^ 76) bound }
    requires worth { Small (2 ^ 116) worth }
    requires premium { Small (2 ^ 126) premium }
    ensures { result ≡ gap_of request bound worth premium }
{
    match request {
        Request::Bid => bound + worth - premium,
        Request::Ask => premium + bound - worth,
    }
}

impl<'a, C: Contract> Book<'a, C> {
    // What lots of one more contract, bid or asked, would be quoted at beside the fills.
    pub fn quote(&self, fills: &[Fill], weights: &Weights, asked: Asked<C>) -> Quote
        ensures { result ≡ quoted C.Contract.meaning self.now.ceiling.value self.now.rows.now (given fills.now) asked.contract asked.lots weights.now.list.now asked.request }
    {
        let bound = self.bound(weights);
        let value = weights.value(asked.contract, self.ceiling);
        let cash = self.cash_taken(fills);
        let peak = self.reserve_beside(fills, asked);
        let premium = premium_for(asked.request, cash, peak.owed);
        Quote {
            premium,
            reserve: peak.owed,
            worst: peak.price,
            gap: gap_for(
                asked.request,
                bound,
                lots_worth(asked.lots, value),
                weights.counted(premium),
            ),
            weights: weights.sum,
        }
    }
}

// The same beside the rows of a house, of all that are lent to it, where the list of weights passes its tests.
pub fn quote_beside<C: Contract>(
    rows: &[Row<C>],
    fills: &[Fill],
    list: &[Weight],
    ceiling: Ceiling,
    contract: C,
    request: Request,
    lots: u64,
) -> Result<Quote, WeightFault>
    ensures { result ≡ by_weights ceiling.value list.now (quoted C.Contract.meaning ceiling.value (house_rows rows.now) (given fills.now) contract lots list.now request) }
{
    let weights = Weights::new(list, ceiling)?;
    let asked = Asked {
        contract,
        request,
        lots,
    };
    Ok(Book::of(rows, ceiling).quote(fills, &weights, asked))
}
