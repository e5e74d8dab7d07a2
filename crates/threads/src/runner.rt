// The thread machine is a runner: its numbers are those of a schedule.
ghost use Rattle.threads.specs.Machines.{plays, program};
ghost use Rattle.threads.specs.Points.{Ready, Follows};
ghost use Rattle.threads.specs.Runners.{play_lawful};

use crate::machine::Machine;
use crate::point::Point;
use kinds::Kind;
use walks::outcome::Outcome;
use walks::runner::Runner;

impl<V: Kind> Runner for Machine<V> {
    type Point = Point;

    ghost ready = { λ m. Ready V.Kind.meaning m };

    ghost outcome = { λ m ns. (plays V.Kind.meaning m ns).outcome };

    ghost stands = { λ m at l. Follows V.Kind.meaning m at l };

    ghost lawful = { λ m ready. play_lawful V.Kind.meaning (program m) ready.0 m.rounds ready.1 m.few };

    fn start(&self) -> (Outcome, Point) {
        let at = self.first();
        (self.standing(&at), at)
    }

    fn step(&self, at: &mut Point, number: u8) -> Outcome {
        self.turn(at, number).outcome
    }
}
