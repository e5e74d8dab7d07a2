// Play: a run over a schedule.
ghost use Rattle.std.specs.Prelude.{◌≡◌, length};
ghost use Rattle.tables.specs.WellFormed.{WellFormed};
ghost use Rattle.states.specs.Codes.{LawfulCodes};
ghost use Rattle.threads.specs.Machines.{program, total, plays, cells_left};
ghost use Rattle.threads.specs.Plays.{cells_of};
ghost use Rattle.reports.specs.Reports.{front, refusal, answered, unless};
ghost use Rattle.threads.specs.Reports.{reported};
ghost use Rattle.threads.specs.Turns.{begun, turn as turned_by};

use crate::machine::Machine;
use crate::point::Point;
use kinds::Kind;
use records::refusal::Refusal;
use reports::player::{Player, play};
use reports::report::{Report, Turn};
use walks::outcome::Outcome;

impl<V: Kind> Player for Machine<V> {
    type Point = Point;

    ghost begins = { λ m. begun V.Kind.meaning (program m) (total m) };

    ghost turns = { λ m at n. turned_by V.Kind.meaning (program m) (total m) at n };

    ghost own = { λ m. length (program m).cells };

    ghost holds = { λ m at. cells_of (program m) at.state };

    fn begin(&self) -> (Outcome, Point) {
        let at = self.first();
        (self.standing(&at), at)
    }

    fn read(&self, at: &mut Point, number: u8) -> Turn {
        self.turn(at, number)
    }

    fn cell_count(&self) -> usize {
        self.table.cells().len()
    }

    fn cells_at<'a>(&self, at: &'a Point) -> &'a [u32] {
        &at.state.cells[..self.table.cells().len()]
    }
}

impl<V: Kind> Machine<V> {
    // Runs over a schedule, and writes a slot count for each number that is read, and the cells that the run leaves.
    pub fn play(
        &self,
        numbers: &[u8],
        counts: &mut [u8],
        cells: &mut [u32],
    ) -> Result<Report, Refusal>
        ensures answer { result ≡ answered (refusal numbers.now counts.old cells.old (length (program self.now).cells)) (reported (plays V.meaning self.now numbers.now)) }
        ensures counts { counts.new ≡ unless (refusal numbers.now counts.old cells.old (length (program self.now).cells)) (front (plays V.meaning self.now numbers.now).counts counts.old) counts.old }
        ensures cells { cells.new ≡ unless (refusal numbers.now counts.old cells.old (length (program self.now).cells)) (front (cells_left V.meaning self.now numbers.now) cells.old) cells.old }
        ensures lawful { WellFormed V.meaning (program self.now) → LawfulCodes V.meaning (cells_left V.meaning self.now numbers.now) }
    {
        play(self, numbers, counts, cells)
    }
}
