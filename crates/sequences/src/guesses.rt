// Drive: a run over a list of guesses.
ghost use Rattle.std.specs.Prelude.{◌≡◌, ℕ, length};
ghost use Rattle.reports.specs.Reports.{front, refusal, answered, unless};
ghost use Rattle.tables.specs.Program.{Program};
ghost use Rattle.states.specs.Codes.{LawfulCodes};
ghost use Rattle.sequences.specs.Codes.{LawfulSection};
ghost use Rattle.sequences.specs.Drives.{turn as turned_by, own_cells, drive as drive_code};
ghost use Rattle.sequences.specs.Sequences.{Holds, instructions, sections_of, codes_of, starts, drives_so, cells_left, reported};

use crate::point::SeqPoint;
use crate::sequence::Sequence;
use kinds::Kind;
use records::refusal::Refusal;
use reports::player::{Player, play};
use reports::report::{Report, Turn};
use walks::outcome::Outcome;

impl<V: Kind> Player for Sequence<V> {
    type Point = SeqPoint;

    ghost begins = { λ s. starts V.Kind.meaning s };

    ghost turns = { λ s at n. turned_by V.Kind.meaning (instructions s) at n };

    ghost own = { λ s. length (codes_of s) };

    ghost holds = { λ s at. own_cells (codes_of s) at.state };

    fn begin(&self) -> (Outcome, SeqPoint) {
        self.first()
    }

    fn read(&self, at: &mut SeqPoint, number: u8) -> Turn {
        self.turn(at, number)
    }

    fn cell_count(&self) -> usize {
        self.cells.len()
    }

    fn cells_at<'a>(&self, at: &'a SeqPoint) -> &'a [u32] {
        &at.state.cells[0..self.cells.len()]
    }
}

impl<V: Kind> Sequence<V> {
    // Runs over a list of guesses, and writes a slot count for each number that is read, and the cells that the run
    // leaves.
    pub fn drive(
        &self,
        numbers: &[u8],
        counts: &mut [u8],
        cells: &mut [u32],
    ) -> Result<Report, Refusal>
        ensures answer { result ≡ answered (refusal numbers.now counts.old cells.old (length (codes_of self.now))) (reported (drives_so V.meaning self.now numbers.now)) }
        ensures counts { counts.new ≡ unless (refusal numbers.now counts.old cells.old (length (codes_of self.now))) (front (drives_so V.meaning self.now numbers.now).counts counts.old) counts.old }
        ensures cells { cells.new ≡ unless (refusal numbers.now counts.old cells.old (length (codes_of self.now))) (front (cells_left V.meaning self.now numbers.now) cells.old) cells.old }
        ensures translated { (p : Program) (rounds : ℕ) → Holds self.now p rounds → drives_so V.meaning self.now numbers.now ≡ drive_code V.meaning p rounds numbers.now }
        ensures lawful { LawfulCodes V.meaning (codes_of self.now) → ((i : ℕ) → LawfulSection V.meaning (sections_of self.now i)) → LawfulCodes V.meaning (cells_left V.meaning self.now numbers.now) }
    {
        play(self, numbers, counts, cells)
    }
}
