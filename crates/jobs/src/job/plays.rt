// Play: a run of the thread machine.
ghost use Rattle.std.specs.Prelude.{◌≡◌};
ghost use Rattle.jobs.specs.Keeps.{Keeps};
ghost use Rattle.jobs.specs.Models.{Model, lent_as, cell_count, play_reply, LawfulPlay};

use crate::job::{Job, Stage};
use kinds::Kind;
use records::refusal::Refusal;
use reports::report::Report;

impl<V: Kind> Job<V> {
    // How many cells the program has: so many codes a run leaves.
    pub fn cells(&self) -> usize
        ensures { (m : Model) → Keeps V.meaning self.now m → result ≡ cell_count m }
    {
        match self.session.stage {
            Stage::Empty => 0,
            Stage::Loaded | Stage::Translated => self.session.cells(),
        }
    }

    // Play: a run of the thread machine over a schedule.
    pub fn play(
        &self,
        numbers: &[u8],
        counts: &mut [u8],
        cells: &mut [u32],
    ) -> Result<Report, Refusal>
        ensures answer { (m : Model) → Keeps V.meaning self.now m → lent_as result counts.new cells.new ≡ play_reply V.meaning m numbers.now counts.old cells.old }
        ensures lawful { (m : Model) → Keeps V.meaning self.now m → LawfulPlay V.meaning m numbers.now }
    {
        self.session.play(numbers, counts, cells)
    }
}
