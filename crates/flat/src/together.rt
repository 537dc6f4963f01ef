// Pairs that hold a constant: the kind of this crate beside itself, and beside an option.
ghost use Rattle.std.specs.Prelude.{◌≡◌};
ghost use Rattle.flat.specs.Together.{both_constant, constant_and_call};

use crate::constant::Flat;
use instruments::bounds::Ceiling;
use instruments::faults::Invalid;
use instruments::kind::Contract;
use instruments::options::Vanilla;
use instruments::pairs::Pair;

// Whether two constants make a valid pair. They have no breakpoints, so only the collateral can be too much.
pub fn check_constants(ceiling: Ceiling, one: u64, other: u64) -> Result<(), Invalid>
    ensures { result ≡ both_constant one other }
{
    Pair {
        first: Flat { amount: one },
        second: Flat { amount: other },
    }
    .check(ceiling)
}

// What a constant and a call pay together.
pub fn constant_and_call(ceiling: Ceiling, amount: u64, strike: u64, price: u64) -> u32
    ensures { result ≡ constant_and_call ceiling.value amount strike price }
{
    Pair {
        first: Flat { amount },
        second: Vanilla::Call { strike },
    }
    .payoff(ceiling, price)
}
