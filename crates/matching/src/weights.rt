// The tests of a list of weights, and the figures that are counted with them. A figure is told only for
// a list that passes its tests, so that every sum stays within its type.
ghost use Rattle.std.specs.Prelude.{◌≡◌, ◌*◌, ◌^◌, ◌≤◌, length, Ok, Err, OnOk, IfOk, IfErr};
ghost use Rattle.matching.specs.Figures.{advantage, row_bound, bound};
ghost use Rattle.matching.specs.Rows.{house_rows};
ghost use Rattle.matching.specs.Sums.{Small};
ghost use Rattle.matching.specs.Weights.{weight_sum, bad_weight, first_bad, weights_verdict, by_weights, value};

use crate::book::Book;
use crate::products::{times, times_worth};
use crate::proposals::{Weight, WeightFault};
use crate::rows::{Row, Side};
use instruments::bounds::Ceiling;
use instruments::kind::Contract;

pub const MAX_WEIGHTS: usize = 512;
// of one weight, and of all together
pub const MAX_WEIGHT: u64 = 1_000_000;

fn is_bad_weight(entry: &Weight, ceiling: Ceiling) -> bool
    ensures { result ≡ bad_weight ceiling.value entry.now }
{
    entry.price > u64::from(ceiling.value) || entry.weight > MAX_WEIGHT
}

// The first entry with a price above the ceiling or a weight above the limit.
fn first_bad_weight(list: &[Weight], ceiling: Ceiling) -> Option<usize>
    ensures { result ≡ first_bad ceiling.value list.now }
{
    list.iter().position(|entry| is_bad_weight(entry, ceiling))
}

// The sum of the weights. There are few enough that it fits, however large each is.
#[tactic(auto, using(crate::proofs::Weighing::weighing))]
fn sum_of(list: &[Weight]) -> u128
    requires { length list.now ≤ 512 }
    ensures { result ≡ weight_sum list.now }
{
    let mut sum: u128 = 0;
    for entry in list {
        sum += u128::from(entry.weight);
    }
    sum
}

// W, the sum of the weights. The tests in their order: how many there are, the first bad entry, the sum.
pub fn check_weights(list: &[Weight], ceiling: Ceiling) -> Result<u32, WeightFault>
    ensures { result ≡ by_weights ceiling.value list.now (weight_sum list.now) }
{
    let count = list.len();
    if count == 0 || count > MAX_WEIGHTS {
        return Err(WeightFault::Count(count));
    }
    if let Some(i) = first_bad_weight(list, ceiling) {
        return Err(WeightFault::Entry(i));
    }
    let sum = sum_of(list);
    if sum == 0 || sum > u128::from(MAX_WEIGHT) {
        return Err(WeightFault::Sum(count));
    }
    Ok(sum as u32)
}

// A list of weights that has passed its tests under a ceiling, with W, their sum.
#[derive(Clone, Copy)]
pub struct Weights<'a> {
    pub list: &'a [Weight],
    pub ceiling: Ceiling,
    pub sum: u32,
    ghost summed: { weight_sum list.now ≡ sum },
    ghost few: { sum ≤ 1000000 },
    ghost passed: { weights_verdict ceiling.value list.now ≡ Ok tt },
}

impl<'a> Weights<'a> {
    // The list with its sum, where it passes its tests.
    pub fn new(list: &'a [Weight], ceiling: Ceiling) -> Result<Weights<'a>, WeightFault>
        ensures passed { OnOk result (weights_verdict ceiling.value list.now ≡ Ok tt) }
        ensures list { IfOk result (λ w. w.list.now ≡ list.now) }
        ensures ceiling { IfOk result (λ w. w.ceiling.value ≡ ceiling.value) }
        ensures fault { IfErr result (λ f. weights_verdict ceiling.value list.now ≡ Err f) }
    {
        let sum = check_weights(list, ceiling)?;
        Ok(Weights { list, ceiling, sum })
    }
}

impl Weights<'_> {
    // What a contract is worth under them.
    #[tactic(auto, using(crate::proofs::Weighing::weighing))]
    pub fn value<C: Contract>(&self, contract: C, ceiling: Ceiling) -> u64
        ensures value { result ≡ value C.Contract.meaning ceiling.value self.now.list.now contract }
        ensures bound { result ≤ 1000000 * 2 ^ 32 }
    {
        let mut sum: u64 = 0;
        for entry in self.list {
            sum += times(entry.weight, contract.payoff(ceiling, entry.price)) as u64;
        }
        sum
    }

    // By how much a lot's price, counted W times, betters its value.
    fn advantage<C: Contract>(&self, row: &Row<C>, ceiling: Ceiling) -> u64
        ensures value { result ≡ advantage C.Contract.meaning ceiling.value self.now.list.now row.now row.now.side }
        ensures bound { result ≤ 1000000 * 2 ^ 32 }
    {
        let price = times(u64::from(self.sum), row.price) as u64;
        let value = self.value(row.contract, ceiling);
        match row.side {
            Side::Buy => price.saturating_sub(value),
            Side::Sell => value.saturating_sub(price),
        }
    }

    // What the open lots of a row could add.
    fn row_bound<C: Contract>(&self, row: &Row<C>, ceiling: Ceiling) -> i128
        ensures value { result ≡ row_bound C.Contract.meaning ceiling.value self.now.list.now row.now }
        ensures bound { Small (2 ^ 68) result }
    {
        times_worth(u64::from(row.open), self.advantage(row, ceiling)) as i128
    }
}

impl<'a, C: Contract> Book<'a, C> {
    // The bound on what any matching of the standing orders can net, counted W times: the sum over the rows
    // of what each could add.
    pub fn bound(&self, weights: &Weights) -> i128
        ensures value { result ≡ bound C.Contract.meaning self.now.ceiling.value weights.now.list.now self.now.rows.now }
        ensures bound { Small (2 ^ 76) result }
    {
        self.sum(|row| weights.row_bound(row, self.ceiling))
    }
}

// A contract's value under a list of weights, where it passes its tests.
pub fn value_of<C: Contract>(
    list: &[Weight],
    contract: C,
    ceiling: Ceiling,
) -> Result<u64, WeightFault>
    ensures { result ≡ by_weights ceiling.value list.now (value C.Contract.meaning ceiling.value list.now contract) }
{
    Ok(Weights::new(list, ceiling)?.value(contract, ceiling))
}

// The bound over the rows of a house, of all that are lent to it, where the list of weights passes its tests.
pub fn bound_of<C: Contract>(
    rows: &[Row<C>],
    list: &[Weight],
    ceiling: Ceiling,
) -> Result<i128, WeightFault>
    ensures { result ≡ by_weights ceiling.value list.now (bound C.Contract.meaning ceiling.value list.now (house_rows rows.now)) }
{
    let weights = Weights::new(list, ceiling)?;
    Ok(Book::of(rows, ceiling).bound(&weights))
}
