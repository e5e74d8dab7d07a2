// A new session, and what gives it a program: Load and Translate.
ghost use Rattle.std.specs.Prelude.{◌≡◌, IfOk};
ghost use Rattle.questions.specs.Question.{question};
ghost use Rattle.tables.specs.Program.{decoded};
ghost use Rattle.threads.specs.Machines.{program};
ghost use Rattle.jobs.specs.declared.job.Stage.TheVariants.{Loaded as loaded_stage, Translated as translated_stage};
ghost use Rattle.jobs.specs.Keeps.{KeepsSession};
ghost use Rattle.jobs.specs.Models.{Model, next, load, translate};
ghost use Rattle.jobs.specs.Sessions.{held, holds, unused, settled, rounds_answer};

use crate::job::Stage;
use crate::session::Session;
use kinds::Kind;
use records::refusal::{LoadError, Refusal};
use std::alloc::{AllocError, Global};
use tables::table::Table;
use threads::machine::Machine;
use walks::walk::Walk;

impl<V: Kind> Session<V> {
    // An empty session. Only here can memory be short.
    pub fn new(heap: Global) -> Result<Session<V>, AllocError>
        ensures { IfOk result (λ s. held s ≡ unused) }
    {
        let machine = Machine::new(Table::new(heap)?);
        let survey = Walk::begin(&machine);
        Ok(Session {
            stage: Stage::Empty,
            machine,
            survey,
        })
    }

    // Load: the first no, or the program of the file. A refusal leaves the session as it was.
    pub fn load(&mut self, file: &[u8]) -> Result<(), LoadError>
        ensures answer { result ≡ question V.meaning file.now }
        ensures after { held self.new ≡ settled result (holds loaded_stage (decoded file.now) self.old.machine.rounds) (held self.old) }
        ensures keeps { (m : Model) → KeepsSession V.meaning self.old m → KeepsSession V.meaning self.new (next V.meaning m (load file.now)) }
    {
        self.machine.table.load::<V>(file)?;
        self.stage = Stage::Loaded;
        Ok(())
    }

    // Translate: sets the number of rounds, and the walk at its beginning. A refusal leaves the session as it was.
    pub fn translate(&mut self, rounds: u32) -> Result<(), Refusal>
        ensures answer { result ≡ rounds_answer self.old.stage rounds }
        ensures after { held self.new ≡ settled result (holds translated_stage (program self.old.machine) rounds) (held self.old) }
        ensures keeps { (m : Model) → KeepsSession V.meaning self.old m → KeepsSession V.meaning self.new (next V.meaning m (translate rounds)) }
    {
        if let Stage::Empty = self.stage {
            return Err(Refusal::NotLoaded);
        }
        self.machine.set_rounds(rounds)?;
        self.survey = Walk::begin(&self.machine);
        self.stage = Stage::Translated;
        Ok(())
    }
}
