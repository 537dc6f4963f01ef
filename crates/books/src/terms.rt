// The terms of a house.
ghost use Rattle.std.specs.Prelude.{◌≤◌};

use instruments::bounds::Ceiling;

pub const MAX_HOUSE: u64 = 65_535;

pub const MAX_GAP: u64 = 1_000_000_000;

// A house number, a ceiling and an allowed gap, each always in its range: so opening a house and the
// arithmetic in it need no tests.
#[derive(Clone, Copy)]
pub struct Terms {
    pub house: u16,
    pub ceiling: Ceiling,
    pub gap: u32,
    ghost allowed: { gap ≤ 1000000000 },
}
