// Why a contract is invalid, and in which part of it the reason lies.
ghost use Rattle.std.specs.Prelude.{◌≡◌};
ghost use Rattle.instruments.specs.Faults.{reason_number, place_number, of_whole, placed};

// Each reason stands beside the number under which it is told.
#[derive(Clone, Copy, PartialEq, Eq, Debug)]
pub enum Reason {
    // the strike is not from 1 to the ceiling
    Strike = 1,
    // the edges do not rise, or the higher one is above the ceiling
    Edges = 2,
    // more than 8 breakpoints
    Breakpoints = 3,
    // a collateral above 1,000,000
    Collateral = 4,
}

impl Reason {
    pub fn number(self) -> u8
        ensures { result ≡ reason_number self }
    {
        self as u8 // 1 to 4
    }
}

// Where the reason lies: in the first or the second part of the outermost pair, or in the whole.
#[derive(Clone, Copy, PartialEq, Eq, Debug)]
pub enum Place {
    Whole = 0,
    First = 1,
    Second = 2,
}

impl Place {
    pub fn number(self) -> u8
        ensures { result ≡ place_number self }
    {
        self as u8 // 0 to 2
    }
}

#[derive(Clone, Copy, PartialEq, Eq, Debug)]
pub struct Invalid {
    pub reason: Reason,
    pub place: Place,
}

impl Invalid {
    // A fault of the contract itself, and not of a part of it.
    pub fn of_whole(reason: Reason) -> Invalid
        ensures { result ≡ of_whole reason }
    {
        Invalid {
            reason,
            place: Place::Whole,
        }
    }

    // The same reason in a part of a pair, whatever place the part itself told.
    pub fn placed(self, place: Place) -> Invalid
        ensures { result ≡ placed place self }
    {
        Invalid { place, ..self }
    }
}
