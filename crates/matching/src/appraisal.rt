// The figures of a proposal, each found once.
ghost use Rattle.std.specs.Prelude.{◌≡◌, ◌*◌, ◌^◌, pos, ◌-ℤ◌, ◌*ℤ◌, IfOk};
ghost use Rattle.matching.specs.Appraisal.{appraisal, WithinType};
ghost use Rattle.matching.specs.Rows.{house_rows};
ghost use Rattle.matching.specs.Sums.{Small};
ghost use Rattle.matching.specs.Weights.{by_weights};

use crate::book::Book;
use crate::proposals::{Fill, Weight, WeightFault};
use crate::rows::Row;
use crate::weights::Weights;
use instruments::bounds::Ceiling;
use instruments::kind::Contract;

// What the fills of a proposal take in now and owe at worst, the lowest price where they owe that, what is
// left, and by how much another matching could be better, counted as often as the weights add up to.
#[derive(Clone, Copy, PartialEq, Eq, Debug)]
pub struct Appraisal {
    pub cash: i128,
    pub reserve: i128,
    pub worst: u32,
    pub net: i128,
    pub gap: i128,
    pub weights: u32,
}

// Cash less a reserve, or a reserve less cash.
pub(crate) fn less(amount: i128, other: i128) -> i128
    requires amount { Small (257 * 2 ^ 96) amount }
    requires other { Small (257 * 2 ^ 96) other }
    ensures value { result ≡ amount -ℤ other }
    ensures bound { Small (2 ^ 106) result }
{
    amount - other
}

impl Weights<'_> {
    // An amount, counted as often as the weights add up to.
    pub(crate) fn counted(&self, amount: i128) -> i128
        requires { Small (2 ^ 106) amount }
        ensures value { result ≡ pos self.now.sum *ℤ amount }
        ensures bound { Small (2 ^ 126) result }
    {
        i128::from(self.sum) * amount
    }
}

impl<'a, C: Contract> Book<'a, C> {
    // The figures by which a proposal is judged.
    pub fn appraise(&self, fills: &[Fill], weights: &Weights) -> Appraisal
        ensures value { result ≡ appraisal C.Contract.meaning self.now.ceiling.value weights.now.list.now self.now.rows.now fills.now }
        ensures bound { WithinType result }
    {
        let bound = self.bound(weights);
        let cash = self.cash_taken(fills);
        let peak = self.reserve(fills);
        let net = less(cash, peak.owed);
        Appraisal {
            cash,
            reserve: peak.owed,
            worst: peak.price,
            net,
            gap: bound - weights.counted(net),
            weights: weights.sum,
        }
    }
}

// The same of the rows of a house, of all that are lent to it, where the list of weights passes its tests.
pub fn appraise<C: Contract>(
    rows: &[Row<C>],
    fills: &[Fill],
    list: &[Weight],
    ceiling: Ceiling,
) -> Result<Appraisal, WeightFault>
    ensures value { result ≡ by_weights ceiling.value list.now (appraisal C.Contract.meaning ceiling.value list.now (house_rows rows.now) fills.now) }
    ensures bound { IfOk result WithinType }
{
    let weights = Weights::new(list, ceiling)?;
    Ok(Book::of(rows, ceiling).appraise(fills, &weights))
}
