// A walk visits leaves.
ghost use Rattle.std.specs.Prelude.{◌≡◌, ◌+◌, ◌^◌, ◌<◌, if◌then◌else◌, nat_eq};
ghost use Rattle.walks.specs.declared.walk.Answer.TheVariants.{Done, Spent};
ghost use Rattle.walks.specs.Leaves.{leaves, Complete};
ghost use Rattle.walks.specs.Tallies.{visited, tallied, nothing};
ghost use Rattle.walks.specs.Walks.{Tied, Visited, Advanced, and_one};

use crate::cursor::{Cursor, Level};
use crate::outcome::Ending;
use crate::runner::Runner;
use crate::tally::Tally;
use crate::walk::{Answer, Walk};

impl<P: Copy> Walk<P> {
    // A walk that has visited nothing yet.
    pub fn begin<R: Runner<Point = P>>(r: &R) -> Walk<P>
        ensures tied { Tied (R.outcome r.now) (R.stands r.now) result }
        ensures tally { tallied result.tally ≡ nothing }
        ensures complete { R.ready r.now → Complete (R.outcome r.now) (leaves (R.outcome r.now)) }
    {
        let (outcome, point) = r.start();
        let level = Level {
            bound: outcome.bound(),
            point,
        };
        // All in one: a cursor that a function gives is copied once more, and it has 65 points.
        Walk {
            cursor: Cursor {
                numbers: [0; 64],
                levels: [level; 65],
                depth: Cursor::<P>::first_depth(outcome),
            },
            tally: Tally::new(),
        }
    }

    // Visits the next leaf, if one is left, and says how it ends.
    pub fn visit<R: Runner<Point = P>>(&mut self, r: &R) -> Option<Ending>
        requires { visited self.old.tally + 1 < 2 ^ 32 }
        ensures count { visited self.new.tally ≡ and_one (visited self.old.tally) result }
        ensures leaf { R.ready r.now → Tied (R.outcome r.now) (R.stands r.now) self.old → Visited (R.outcome r.now) (R.stands r.now) self.old self.new result }
    {
        if self.cursor.depth == 0 {
            return None;
        }
        let ending = self.cursor.descend(r);
        self.tally.note(ending, &self.cursor);
        self.cursor.leave(ending);
        Some(ending)
    }

    // What the walk answers where it stands: Done if no leaf is left.
    pub fn answer(&self) -> Answer
        ensures { result ≡ (if nat_eq self.now.cursor.depth 0 then Done else Spent) }
    {
        if self.cursor.depth == 0 {
            Answer::Done
        } else {
            Answer::Spent
        }
    }

    // Visits the next `b` leaves, or those left.
    pub fn advance<R: Runner<Point = P>>(&mut self, r: &R, b: u32) -> Answer
        requires { visited self.old.tally + b < 2 ^ 32 }
        ensures leaves { R.ready r.now → Tied (R.outcome r.now) (R.stands r.now) self.old → Advanced (R.outcome r.now) (R.stands r.now) self.old self.new b result }
        ensures complete { R.ready r.now → Complete (R.outcome r.now) (leaves (R.outcome r.now)) }
    {
        for _ in 0..b {
            if self.visit(r).is_none() {
                return Answer::Done;
            }
        }
        self.answer()
    }
}
