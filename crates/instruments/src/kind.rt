// A kind of contract: five questions, what their answers mean, and the rules that the meaning keeps.
ghost use Rattle.std.specs.Prelude.{◌≡◌};
ghost use Rattle.instruments.specs.Meaning.{Meaning};
ghost use Rattle.instruments.specs.Rules.{Rules};

use crate::bounds::Ceiling;
use crate::faults::Invalid;

pub trait Contract: Copy {
    // What the contracts of this kind are worth, as functions of the ceiling and the contract.
    ghost meaning: { Meaning Self };

    // Is the contract valid under this ceiling, or else for which reason is it not?
    fn check(self, ceiling: Ceiling) -> Result<(), Invalid>
        ensures { result ≡ meaning.check ceiling.value self };

    // What one lot pays where the index is fixed at `price`.
    fn payoff(self, ceiling: Ceiling, price: u64) -> u32
        ensures { result ≡ meaning.payoff ceiling.value self price };

    // What the seller of one lot must have in hand.
    fn collateral(self, ceiling: Ceiling) -> u32
        ensures { result ≡ meaning.collateral ceiling.value self };

    // How many breakpoints the payoff has.
    fn breakpoints(self, ceiling: Ceiling) -> u8
        ensures { result ≡ meaning.breakpoints ceiling.value self };

    // The breakpoint at `index`, counted from 0.
    fn breakpoint(self, ceiling: Ceiling, index: u64) -> u32
        ensures { result ≡ meaning.breakpoint ceiling.value self index };

    ghost rules: { Rules meaning };
}
