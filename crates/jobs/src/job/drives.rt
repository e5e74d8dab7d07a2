// Drive: a run of the sequential program.
ghost use Rattle.std.specs.Prelude.{◌≡◌};
ghost use Rattle.jobs.specs.Keeps.{Keeps};
ghost use Rattle.jobs.specs.Models.{Model, lent_as, drive_reply, LawfulDrive};

use crate::job::{Job, Stage};
use kinds::Kind;
use records::refusal::Refusal;
use reports::report::Report;

impl<V: Kind> Job<V> {
    // Drive: a run of the sequential program over a guess list.
    pub fn drive(
        &self,
        numbers: &[u8],
        counts: &mut [u8],
        cells: &mut [u32],
    ) -> Result<Report, Refusal>
        ensures answer { (m : Model) → Keeps V.meaning self.now m → lent_as result counts.new cells.new ≡ drive_reply V.meaning m numbers.now counts.old cells.old }
        ensures lawful { (m : Model) → Keeps V.meaning self.now m → LawfulDrive V.meaning m numbers.now }
    {
        match self.session.stage {
            Stage::Empty | Stage::Loaded => Err(Refusal::NotTranslated),
            Stage::Translated => self.sequential.sequence.drive(numbers, counts, cells),
        }
    }
}
