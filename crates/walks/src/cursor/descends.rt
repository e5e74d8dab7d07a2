// A cursor goes down to a leaf.
ghost use Rattle.std.specs.Prelude.{◌≡◌, ℕ, ◌<◌, List, [], ◌∷◌, ◌++◌};
ghost use Rattle.walks.specs.Cursors.{PlacedAt, Arrived, Descended};
ghost use Rattle.walks.specs.Paths.{levels, points, pushed};
ghost use Rattle.walks.specs.Runs.{Landed};

use crate::cursor::Cursor;
use crate::outcome::{Ending, Outcome};
use crate::runner::Runner;

// One number more, from a point on. Only here is a runner asked to go on.
fn go_on<R: Runner>(r: &R, at: &mut R::Point, number: u8) -> Outcome
    ensures { (l : List ℕ) → R.stands r.now at.old l → Landed (R.outcome r.now) (R.stands r.now) (l ++ number ∷ []) result at.new }
{
    r.step(at, number)
}

impl<P: Copy> Cursor<P> {
    // Runs the list, from the point before its last number.
    fn step<R: Runner<Point = P>>(&mut self, r: &R) -> Outcome
        requires { 0 < self.old.depth }
        ensures path { levels self.new ≡ levels self.old }
        ensures point { PlacedAt (R.stands r.now) self.old → Arrived (R.outcome r.now) (R.stands r.now) self.new result }
    {
        let top = self.depth - 1;
        let number = self.numbers[top];
        let levels = &mut self.levels;
        let levels = &mut levels[..];
        levels[top + 1].point = levels[top].point;
        go_on(r, &mut levels[top + 1].point, number)
    }

    // One level more, at its first number and the point behind the list.
    fn push(&mut self, bound: u8)
        requires { self.old.depth < 64 }
        ensures path { levels self.new ≡ pushed (levels self.old) bound }
        ensures points { points self.new ≡ points self.old }
    {
        self.numbers[self.depth] = 0;
        self.levels[self.depth].bound = bound;
        self.depth += 1;
    }

    // Goes on to the first leaf ahead, and says how it ends. A list that has no room for one more level is cut: that of a
    // lawful runner is never open then.
    pub fn descend<R: Runner<Point = P>>(&mut self, r: &R) -> Ending
        requires { 0 < self.old.depth }
        ensures { R.ready r.now → PlacedAt (R.stands r.now) self.old → Descended (R.outcome r.now) (R.stands r.now) self.old self.new result }
    {
        loop {
            match self.step(r) {
                Outcome::Ended(ending) => return ending,
                Outcome::Open(bound) => {
                    if self.depth == 64 {
                        return Ending::Cut;
                    }
                    self.push(bound);
                }
            }
        }
    }
}
