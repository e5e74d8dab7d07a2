// A cursor begins, and goes on past a leaf.
ghost use Rattle.std.specs.Prelude.{◌≡◌};
ghost use Rattle.walks.specs.Paths.{levels, points, first_depth as depth_of, turned, left};

use crate::cursor::Cursor;
use crate::outcome::{Ending, Outcome};

impl<P: Copy> Cursor<P> {
    // How many levels there are at first: one if the empty list is open, and else none.
    pub fn first_depth(outcome: Outcome) -> usize
        ensures { result ≡ depth_of outcome }
    {
        match outcome {
            Outcome::Open(_) => 1,
            Outcome::Ended(_) => 0,
        }
    }

    // Goes on to the next number of the deepest level that has one.
    fn turn(&mut self)
        ensures path { levels self.new ≡ turned (levels self.old) }
        ensures points { points self.new ≡ points self.old }
    {
        for i in (0..self.depth).rev() {
            if self.numbers[i] < self.levels[i].bound {
                self.numbers[i] += 1;
                self.depth = i + 1;
                return;
            }
        }
        self.depth = 0;
    }

    // Goes on past a leaf. The greater numbers after one that fails are no leaves.
    pub fn leave(&mut self, ending: Ending)
        ensures path { levels self.new ≡ turned (left ending (levels self.old)) }
        ensures points { points self.new ≡ points self.old }
    {
        if ending == Ending::Failed {
            self.depth = self.depth.saturating_sub(1);
        }
        self.turn();
    }
}
