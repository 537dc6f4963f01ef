// The ceiling: the highest whole price at which the index can be fixed.
ghost use Rattle.std.specs.Prelude.{◌≡◌, ◌≤◌};
ghost use Rattle.instruments.specs.Bounds.{figure, offered_ceiling};

pub const MAX_CEILING: u64 = 100_000;

// A contract has at most so many breakpoints, and so much collateral for each lot: together with the
// limits on lots and rows they keep every sum of a matching within its type.
pub const MAX_BREAKPOINTS: u16 = 8;

pub const MAX_COLLATERAL: u64 = 1_000_000;

// A figure that always lies from 1 to 100,000.
#[derive(Clone, Copy, PartialEq, Eq, Debug)]
pub struct Ceiling {
    pub value: u32,
    ghost from: { 1 ≤ value },
    ghost to: { value ≤ 100000 },
}

impl Ceiling {
    // The ceiling with this figure, or none where there is no such ceiling.
    pub fn new(value: u64) -> Option<Ceiling>
        ensures { figure (λ c. c.value) result ≡ offered_ceiling value }
    {
        if (1..=MAX_CEILING).contains(&value) {
            Some(Ceiling {
                value: value as u32,
            })
        } else {
            None
        }
    }
}
