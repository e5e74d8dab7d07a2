// Save and Emit: the program's file, and that of its sequential program.
ghost use Rattle.std.specs.Prelude.{◌≡◌};
ghost use Rattle.jobs.specs.Keeps.{Keeps};
ghost use Rattle.jobs.specs.Models.{Model, written_as, save_reply, emit_reply};

use crate::job::{Job, Stage};
use kinds::Kind;
use records::refusal::Refusal;
use sections::emit::emit;

impl<V: Kind> Job<V> {
    // Save: writes the program's file to the front of the buffer, and answers its length.
    pub fn save(&self, out: &mut [u8]) -> Result<usize, Refusal>
        ensures { (m : Model) → Keeps V.meaning self.now m → written_as result out.new ≡ save_reply V.meaning m out.old }
    {
        self.session.save(out)
    }

    // Emit: writes the sequential program's file to the front of the buffer, and answers its length.
    pub fn emit(&self, out: &mut [u8]) -> Result<usize, Refusal>
        ensures { (m : Model) → Keeps V.meaning self.now m → written_as result out.new ≡ emit_reply V.meaning m out.old }
    {
        match self.session.stage {
            Stage::Empty | Stage::Loaded => Err(Refusal::NotTranslated),
            Stage::Translated => emit(
                &self.session.machine.table,
                self.session.machine.rounds,
                &self.sequential.sequence,
                out,
            ),
        }
    }
}
