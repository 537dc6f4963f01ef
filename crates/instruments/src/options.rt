// The plain option.
ghost use Rattle.std.specs.Prelude.{◌≡◌};
ghost use Rattle.instruments.specs.Vanilla.{strike_of, vanilla_valid, vanilla_meaning};
ghost use Rattle.instruments.specs.OptionRules.{vanilla-rules};

use crate::bounds::Ceiling;
use crate::faults::{Invalid, Reason};
use crate::kind::Contract;

// The right to be paid what the index ends above the strike (a call) or below it (a put).
#[derive(Clone, Copy, PartialEq, Eq, Debug)]
pub enum Vanilla {
    Call { strike: u64 },
    Put { strike: u64 },
}

impl Vanilla {
    fn strike(self) -> u64
        ensures { result ≡ strike_of self }
    {
        match self {
            Vanilla::Call { strike } | Vanilla::Put { strike } => strike,
        }
    }

    fn valid(self, ceiling: Ceiling) -> bool
        ensures { result ≡ vanilla_valid ceiling.value self }
    {
        (1..=u64::from(ceiling.value)).contains(&self.strike())
    }
}

impl Contract for Vanilla {
    ghost meaning = { vanilla_meaning };

    ghost rules = { vanilla-rules };

    fn check(self, ceiling: Ceiling) -> Result<(), Invalid> {
        if self.valid(ceiling) {
            Ok(())
        } else {
            Err(Invalid::of_whole(Reason::Strike))
        }
    }

    fn payoff(self, ceiling: Ceiling, price: u64) -> u32 {
        if !self.valid(ceiling) || price > u64::from(ceiling.value) {
            return 0;
        }
        match self {
            Vanilla::Call { strike } => price.saturating_sub(strike) as u32,
            Vanilla::Put { strike } => strike.saturating_sub(price) as u32,
        }
    }

    fn collateral(self, ceiling: Ceiling) -> u32 {
        if !self.valid(ceiling) {
            return 0;
        }
        match self {
            Vanilla::Call { strike } => ceiling.value - strike as u32,
            Vanilla::Put { strike } => strike as u32,
        }
    }

    fn breakpoints(self, ceiling: Ceiling) -> u8 {
        if self.valid(ceiling) { 1 } else { 0 }
    }

    fn breakpoint(self, ceiling: Ceiling, index: u64) -> u32 {
        if self.valid(ceiling) && index == 0 {
            self.strike() as u32
        } else {
            0
        }
    }
}
