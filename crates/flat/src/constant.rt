// The constant: a contract that pays the same amount at every price up to the ceiling.
ghost use Rattle.std.specs.Prelude.{◌≡◌};
ghost use Rattle.flat.specs.Flat.{flat_valid, flat_meaning};
ghost use Rattle.flat.specs.FlatRules.{flat-rules};

use instruments::bounds::{Ceiling, MAX_COLLATERAL};
use instruments::faults::{Invalid, Reason};
use instruments::kind::Contract;

#[derive(Clone, Copy, PartialEq, Eq, Debug)]
pub struct Flat {
    pub amount: u64,
}

impl Flat {
    fn valid(self) -> bool
        ensures { result ≡ flat_valid self }
    {
        self.amount <= MAX_COLLATERAL
    }
}

impl Contract for Flat {
    ghost meaning = { flat_meaning };

    ghost rules = { flat-rules };

    fn check(self, _ceiling: Ceiling) -> Result<(), Invalid> {
        if self.valid() {
            Ok(())
        } else {
            Err(Invalid::of_whole(Reason::Collateral))
        }
    }

    fn payoff(self, ceiling: Ceiling, price: u64) -> u32 {
        if self.valid() && price <= u64::from(ceiling.value) {
            self.amount as u32
        } else {
            0
        }
    }

    fn collateral(self, _ceiling: Ceiling) -> u32 {
        if self.valid() { self.amount as u32 } else { 0 }
    }

    fn breakpoints(self, _ceiling: Ceiling) -> u8 {
        0
    }

    fn breakpoint(self, _ceiling: Ceiling, _index: u64) -> u32 {
        0
    }
}
