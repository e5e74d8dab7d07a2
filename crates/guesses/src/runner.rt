// The sequential program is a runner: its numbers are guesses of where a thread stops.
ghost use Rattle.guesses.specs.Points.{Ready, Follows};
ghost use Rattle.sequences.specs.Sequences.{drives_so};
ghost use Rattle.guesses.specs.Runners.{ready_lawful};

use crate::machine::SequentialMachine;
use kinds::Kind;
use sequences::point::SeqPoint;
use walks::outcome::Outcome;
use walks::runner::Runner;

impl<V: Kind> Runner for SequentialMachine<V> {
    type Point = SeqPoint;

    ghost ready = { λ m. Ready V.Kind.meaning m.sequence };

    ghost outcome = { λ m ns. (drives_so V.Kind.meaning m.sequence ns).outcome };

    ghost stands = { λ m at l. Follows V.Kind.meaning m.sequence at l };

    ghost lawful = { λ m ready. ready_lawful V.Kind.meaning m.sequence ready };

    fn start(&self) -> (Outcome, SeqPoint) {
        self.sequence.first()
    }

    fn step(&self, at: &mut SeqPoint, number: u8) -> Outcome {
        self.sequence.turn(at, number).outcome
    }
}
