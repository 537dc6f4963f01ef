// The spread: a payoff that rises or falls between two edges, and is level outside them.
ghost use Rattle.std.specs.Prelude.{◌≡◌};
ghost use Rattle.instruments.specs.Spread.{low_of, high_of, spread_valid, spread_meaning};
ghost use Rattle.instruments.specs.SpreadRules.{spread-rules};

use crate::bounds::Ceiling;
use crate::faults::{Invalid, Reason};
use crate::kind::Contract;

#[derive(Clone, Copy, PartialEq, Eq, Debug)]
pub enum Spread {
    Rising { low: u64, high: u64 },
    Falling { low: u64, high: u64 },
}

impl Spread {
    fn low(self) -> u64
        ensures { result ≡ low_of self }
    {
        match self {
            Spread::Rising { low, .. } | Spread::Falling { low, .. } => low,
        }
    }

    fn high(self) -> u64
        ensures { result ≡ high_of self }
    {
        match self {
            Spread::Rising { high, .. } | Spread::Falling { high, .. } => high,
        }
    }

    fn valid(self, ceiling: Ceiling) -> bool
        ensures { result ≡ spread_valid ceiling.value self }
    {
        self.low() < self.high() && self.high() <= u64::from(ceiling.value)
    }
}

impl Contract for Spread {
    ghost meaning = { spread_meaning };

    ghost rules = { spread-rules };

    fn check(self, ceiling: Ceiling) -> Result<(), Invalid> {
        if self.valid(ceiling) {
            Ok(())
        } else {
            Err(Invalid::of_whole(Reason::Edges))
        }
    }

    fn payoff(self, ceiling: Ceiling, price: u64) -> u32 {
        if !self.valid(ceiling) || price > u64::from(ceiling.value) {
            return 0;
        }
        match self {
            Spread::Rising { low, high } => price.saturating_sub(low).min(high - low) as u32,
            Spread::Falling { low, high } => high.saturating_sub(price).min(high - low) as u32,
        }
    }

    fn collateral(self, ceiling: Ceiling) -> u32 {
        if self.valid(ceiling) {
            (self.high() - self.low()) as u32
        } else {
            0
        }
    }

    fn breakpoints(self, ceiling: Ceiling) -> u8 {
        if self.valid(ceiling) { 2 } else { 0 }
    }

    fn breakpoint(self, ceiling: Ceiling, index: u64) -> u32 {
        if !self.valid(ceiling) {
            return 0;
        }
        match index {
            0 => self.low() as u32,
            1 => self.high() as u32,
            _ => 0,
        }
    }
}
