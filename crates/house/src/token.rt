// The token of a report that is owed. Only a clearing makes one, and it may be let go only once it is spent.
ghost use Rattle.std.specs.Prelude.{◌≡◌, true, false};

// It carries the number of its house and of its clearing.
pub struct ReportToken {
    house: u16,
    clearing: u32,
    // a flag, since what is asked when a token is let go can only speak of its fields
    spent: bool,
}

impl Drop for ReportToken {
    fn drop(self)
        requires { self.spent ≡ true }
    {
        let ReportToken {
            house: _,
            clearing: _,
            spent: _,
        } = self;
    }
}

impl ReportToken {
    pub(crate) fn new(house: u16, clearing: u32) -> ReportToken
        ensures { result ≡ record { house = house; clearing = clearing; spent = false } }
    {
        ReportToken {
            house,
            clearing,
            spent: false,
        }
    }

    // The number of the house that made it.
    pub fn house(&self) -> u16
        ensures { result ≡ self.now.house }
    {
        self.house
    }

    // The number of its clearing.
    pub fn clearing(&self) -> u32
        ensures { result ≡ self.now.clearing }
    {
        self.clearing
    }

    // The report is written: the token has done its duty.
    pub(crate) fn spend(mut self) {
        self.spent = true;
    }
}
