// Play and Save: a run over a schedule, and the program's file.
ghost use Rattle.std.specs.Prelude.{◌≡◌, length};
ghost use Rattle.records.specs.Wrote.{counted, filled};
ghost use Rattle.reports.specs.Reports.{front, refusal, answered, unless};
ghost use Rattle.tables.specs.Encoded.{encoded};
ghost use Rattle.threads.specs.Machines.{program, plays, cells_left};
ghost use Rattle.threads.specs.Reports.{reported};
ghost use Rattle.jobs.specs.Keeps.{KeepsSession};
ghost use Rattle.jobs.specs.Models.{Model, first_no, LawfulPlay};
ghost use Rattle.jobs.specs.Sessions.{stage_loaded, stage_translated, else};

use crate::job::Stage;
use crate::session::Session;
use kinds::Kind;
use records::refusal::Refusal;
use reports::report::Report;

impl<V: Kind> Session<V> {
    // How many cells the program has: so many codes a run leaves.
    pub fn cells(&self) -> usize
        ensures { result ≡ length (program self.now.machine).cells }
    {
        self.machine.table.cells().len()
    }

    // Play: a run of the thread machine over a schedule.
    pub fn play(
        &self,
        numbers: &[u8],
        counts: &mut [u8],
        cells: &mut [u32],
    ) -> Result<Report, Refusal>
        ensures answer { result ≡ answered (first_no (stage_translated self.now.stage) (refusal numbers.now counts.old cells.old (length (program self.now.machine).cells))) (reported (plays V.meaning self.now.machine numbers.now)) }
        ensures counts { counts.new ≡ unless (first_no (stage_translated self.now.stage) (refusal numbers.now counts.old cells.old (length (program self.now.machine).cells))) (front (plays V.meaning self.now.machine numbers.now).counts counts.old) counts.old }
        ensures cells { cells.new ≡ unless (first_no (stage_translated self.now.stage) (refusal numbers.now counts.old cells.old (length (program self.now.machine).cells))) (front (cells_left V.meaning self.now.machine numbers.now) cells.old) cells.old }
        ensures lawful { (m : Model) → KeepsSession V.meaning self.now m → LawfulPlay V.meaning m numbers.now }
    {
        match self.stage {
            Stage::Empty | Stage::Loaded => Err(Refusal::NotTranslated),
            Stage::Translated => self.machine.play(numbers, counts, cells),
        }
    }

    // Save: writes the program's file to the front of the buffer, and answers its length.
    pub fn save(&self, out: &mut [u8]) -> Result<usize, Refusal>
        ensures answer { result ≡ else (stage_loaded self.now.stage) (counted out.old (encoded V.meaning.byte (program self.now.machine))) }
        ensures after { out.new ≡ unless (stage_loaded self.now.stage) (filled out.old (encoded V.meaning.byte (program self.now.machine))) out.old }
    {
        match self.stage {
            Stage::Empty => Err(Refusal::NotLoaded),
            Stage::Loaded | Stage::Translated => self.machine.table.save::<V>(out),
        }
    }
}
