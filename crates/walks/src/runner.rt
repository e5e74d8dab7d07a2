// What is walked: runs that read numbers.
ghost use Rattle.std.specs.Prelude.{◌≡◌, ℕ, List, [], ◌∷◌, ◌++◌};
ghost use Rattle.walks.specs.declared.outcome.Outcome.{Outcome};
ghost use Rattle.walks.specs.Outcomes.{IsOpen};
ghost use Rattle.walks.specs.Runs.{Lawful, Landed};

use crate::outcome::Outcome;

// A run can go on from a point, so that no list is run from its start twice.
pub trait Runner {
    type Point: Copy;

    // the runners that the laws are promised of
    ghost ready: { Self → Type 0 };

    // one outcome for every list of numbers
    ghost outcome: { Self → List ℕ → Outcome };

    // `stands r p l`: the point p is where r stands after the open list l
    ghost stands: { Self → Self.Point → List ℕ → Type 0 };

    fn start(&self) -> (Outcome, Self::Point)
        ensures outcome { result.0 ≡ outcome self.now [] }
        ensures stands { IsOpen result.0 → stands self.now result.1 [] };

    // Goes on from a point by one number.
    fn step(&self, at: &mut Self::Point, number: u8) -> Outcome
        ensures { (l : List ℕ) → stands self.now at.old l → Landed (outcome self.now) (stands self.now) (l ++ number ∷ []) result at.new };

    ghost lawful: { (r : Self) → ready r → Lawful (outcome r) };
}
