// What one row adds to each figure of a matching.
ghost use Rattle.std.specs.Prelude.{◌≡◌, ◌*◌, ◌^◌};
ghost use Rattle.matching.specs.Figures.{row_cash, row_owed, filled_lots};
ghost use Rattle.matching.specs.Fills.{given};
ghost use Rattle.matching.specs.Rows.{signed};
ghost use Rattle.matching.specs.Sums.{Small};

use crate::products::times;
use crate::proposals::Fill;
use crate::rows::{Row, Side};
use instruments::bounds::Ceiling;
use instruments::kind::Contract;

// An amount for each lot, times the lots: for a buy as it is, for a sell against.
fn signed_amount(side: Side, each: u32, lots: u64) -> i128
    ensures value { result ≡ signed side (each * lots) }
    ensures bound { Small (lots * 2 ^ 32) result }
{
    let amount = times(lots, each) as i128;
    match side {
        Side::Buy => amount,
        Side::Sell => -amount,
    }
}

// What one row adds to the cash that the house takes in now.
pub fn row_cash<C>(row: &Row<C>, fills: &[Fill]) -> i128
    ensures value { result ≡ row_cash (given fills.now) row.now }
    ensures bound { Small (2 ^ 96) result }
{
    signed_amount(row.side, row.price, row.given_lots(fills))
}

// What the lots of one contract add to what the house owes at a price.
pub fn payoff_owed<C: Contract>(
    side: Side,
    contract: C,
    lots: u64,
    ceiling: Ceiling,
    price: u64,
) -> i128
    ensures value { result ≡ signed side (C.Contract.meaning.payoff ceiling.value contract price * lots) }
    ensures bound { Small (lots * 2 ^ 32) result }
{
    signed_amount(side, contract.payoff(ceiling, price), lots)
}

// What the fill of a row adds to it.
pub(crate) fn row_owed<C: Contract>(
    row: &Row<C>,
    fills: &[Fill],
    ceiling: Ceiling,
    price: u64,
) -> i128
    ensures value { result ≡ row_owed C.Contract.meaning ceiling.value (given fills.now) price row.now }
    ensures bound { Small (2 ^ 96) result }
{
    payoff_owed(
        row.side,
        row.contract,
        row.given_lots(fills),
        ceiling,
        price,
    )
}

// What the filled lots of a row add to it: 16 bits of lots and 32 of a payoff, which fit in 64.
pub fn row_exposed<C: Contract>(row: &Row<C>, ceiling: Ceiling, price: u64) -> i64
    ensures value { result ≡ row_owed C.Contract.meaning ceiling.value filled_lots price row.now }
    ensures bound { Small (2 ^ 48) result }
{
    let owed = payoff_owed(
        row.side,
        row.contract,
        u64::from(row.filled),
        ceiling,
        price,
    );
    owed as i64
}
