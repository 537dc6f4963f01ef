// The pair: one contract of each of two kinds, held together, which is itself a contract.
ghost use Rattle.std.specs.Prelude.{◌≡◌};
ghost use Rattle.instruments.specs.Pair.{pair_check, pair_valid, pair_meaning};
ghost use Rattle.instruments.specs.PairRules.{pair-rules};

use crate::bounds::{Ceiling, MAX_BREAKPOINTS, MAX_COLLATERAL};
use crate::faults::{Invalid, Place, Reason};
use crate::kind::Contract;

#[derive(Clone, Copy, PartialEq, Eq, Debug)]
pub struct Pair<A, B> {
    pub first: A,
    pub second: B,
}

impl<A: Contract, B: Contract> Pair<A, B> {
    // The first part's fault comes before the second's, and theirs before the whole pair's.
    fn verdict(self, ceiling: Ceiling) -> Result<(), Invalid>
        ensures { result ≡ pair_check A.Contract.meaning B.Contract.meaning ceiling.value self }
    {
        let first = self.first.check(ceiling);
        first.map_err(|fault| fault.placed(Place::First))?;
        let second = self.second.check(ceiling);
        second.map_err(|fault| fault.placed(Place::Second))?;
        let breakpoints = u16::from(self.first.breakpoints(ceiling))
            + u16::from(self.second.breakpoints(ceiling));
        if breakpoints > MAX_BREAKPOINTS {
            return Err(Invalid::of_whole(Reason::Breakpoints));
        }
        let collateral = u64::from(self.first.collateral(ceiling))
            + u64::from(self.second.collateral(ceiling));
        if collateral > MAX_COLLATERAL {
            return Err(Invalid::of_whole(Reason::Collateral));
        }
        Ok(())
    }

    fn valid(self, ceiling: Ceiling) -> bool
        ensures { result ≡ pair_valid A.Contract.meaning B.Contract.meaning ceiling.value self }
    {
        self.verdict(ceiling).is_ok()
    }
}

impl<A: Contract, B: Contract> Contract for Pair<A, B> {
    ghost meaning = { pair_meaning A.Contract.meaning B.Contract.meaning };

    ghost rules = { pair-rules _ _ A.Contract.rules B.Contract.rules };

    fn check(self, ceiling: Ceiling) -> Result<(), Invalid> {
        self.verdict(ceiling)
    }

    fn payoff(self, ceiling: Ceiling, price: u64) -> u32 {
        if !self.valid(ceiling) || price > u64::from(ceiling.value) {
            return 0;
        }
        self.first.payoff(ceiling, price) + self.second.payoff(ceiling, price)
    }

    fn collateral(self, ceiling: Ceiling) -> u32 {
        if self.valid(ceiling) {
            self.first.collateral(ceiling) + self.second.collateral(ceiling)
        } else {
            0
        }
    }

    fn breakpoints(self, ceiling: Ceiling) -> u8 {
        if self.valid(ceiling) {
            self.first.breakpoints(ceiling) + self.second.breakpoints(ceiling)
        } else {
            0
        }
    }

    fn breakpoint(self, ceiling: Ceiling, index: u64) -> u32 {
        if !self.valid(ceiling) {
            return 0;
        }
        let first = u64::from(self.first.breakpoints(ceiling));
        let both = first + u64::from(self.second.breakpoints(ceiling));
        if index < first {
            self.first.breakpoint(ceiling, index)
        } else if index < both {
            self.second.breakpoint(ceiling, index - first)
        } else {
            0
        }
    }
}
