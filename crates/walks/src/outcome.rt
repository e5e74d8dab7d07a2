// The outcome of a list of numbers.
ghost use Rattle.std.specs.Prelude.{◌≡◌};
ghost use Rattle.walks.specs.Outcomes.{bound as bound_of};

// How a run ends.
#[derive(Clone, Copy, Debug, PartialEq, Eq)]
pub enum Ending {
    Failed,
    Cut,
    Full,
}

// A run wants one more number, from 0 to the bound, or has ended.
#[derive(Clone, Copy, Debug, PartialEq, Eq)]
pub enum Outcome {
    Open(u8),
    Ended(Ending),
}

impl Outcome {
    // The bound of the number that is wanted, and 0 of a run that has ended.
    pub fn bound(self) -> u8
        ensures { result ≡ bound_of self }
    {
        match self {
            Outcome::Open(bound) => bound,
            Outcome::Ended(_) => 0,
        }
    }
}
