// The choice: a contract of one kind or of another, which answers as it does.
ghost use Rattle.instruments.specs.Either.{either_meaning};
ghost use Rattle.instruments.specs.EitherRules.{either-rules};

use crate::bounds::Ceiling;
use crate::faults::Invalid;
use crate::kind::Contract;
use crate::options::Vanilla;
use crate::spreads::Spread;
pub use either::Either;
use either::for_both;

// Options and spreads in one house.
pub type Traded = Either<Vanilla, Spread>;

impl<A: Contract, B: Contract> Contract for Either<A, B> {
    ghost meaning = { either_meaning A.Contract.meaning B.Contract.meaning };

    ghost rules = { either-rules _ _ A.Contract.rules B.Contract.rules };

    fn check(self, ceiling: Ceiling) -> Result<(), Invalid> {
        for_both!(self, c => c.check(ceiling))
    }

    fn payoff(self, ceiling: Ceiling, price: u64) -> u32 {
        for_both!(self, c => c.payoff(ceiling, price))
    }

    fn collateral(self, ceiling: Ceiling) -> u32 {
        for_both!(self, c => c.collateral(ceiling))
    }

    fn breakpoints(self, ceiling: Ceiling) -> u8 {
        for_both!(self, c => c.breakpoints(ceiling))
    }

    fn breakpoint(self, ceiling: Ceiling, index: u64) -> u32 {
        for_both!(self, c => c.breakpoint(ceiling, index))
    }
}
