// A new job, and what gives it a program: Load and Translate.
ghost use Rattle.std.specs.Prelude.{◌≡◌, ℕ, IfOk};
ghost use Rattle.questions.specs.Question.{question};
ghost use Rattle.tables.specs.Program.{Program};
ghost use Rattle.jobs.specs.Keeps.{Keeps, HasSchedules, HasTranslation};
ghost use Rattle.jobs.specs.Models.{Model, empty, next, load, translate, translate_answer};
ghost use Rattle.jobs.specs.Promises.{CountsAgree};

use crate::job::{Job, Stage};
use crate::session::Session;
use guesses::machine::SequentialMachine;
use kinds::Kind;
use records::refusal::{LoadError, Refusal};
use sequences::sequence::Sequence;
use std::alloc::{AllocError, Global};
use tables::table::Table;
use threads::machine::Machine;
use walks::walk::Walk;

impl<V: Kind> Job<V> {
    // An empty job. Only here can memory be short. All that is promised of a job's counts is promised here.
    pub fn new(heap: Global) -> Result<Job<V>, AllocError>
        ensures made { IfOk result (λ j. Keeps V.meaning j empty) }
        ensures agree { CountsAgree }
    {
        Job::make(heap)
    }

    fn make(heap: Global) -> Result<Job<V>, AllocError>
        ensures { IfOk result (λ j. Keeps V.meaning j empty) }
    {
        let machine = Machine::new(Table::new(heap)?);
        let sequential = SequentialMachine {
            sequence: Sequence::new(heap)?,
        };
        let walk = Walk::begin(&sequential);
        let survey = Walk::begin(&machine);
        // Not by `Session::new`, whose answer is copied twice more, with a walk in it.
        let session = Session {
            stage: Stage::Empty,
            machine,
            survey,
        };
        Ok(Job {
            session,
            sequential,
            walk,
        })
    }

    // Load: the first no, or the program of the file. A refusal leaves the job as it was.
    pub fn load(&mut self, file: &[u8]) -> Result<(), LoadError>
        ensures answer { result ≡ question V.meaning file.now }
        ensures after { (m : Model) → Keeps V.meaning self.old m → Keeps V.meaning self.new (next V.meaning m (load file.now)) }
    {
        self.session.load(file)
    }

    // The sequential program over the rounds that are set, and the walk over its guess lists at its beginning.
    fn translated(&mut self)
        ensures { (p : Program) → (r v : ℕ) → HasSchedules V.meaning self.old.session p r v → HasTranslation V.meaning self.new p r 0 v }
    {
        let machine = &self.session.machine;
        self.sequential
            .sequence
            .translate(&machine.table, machine.rounds);
        self.walk = Walk::begin(&self.sequential);
    }

    // Translate: makes the sequential program over so many rounds. A refusal leaves the job as it was.
    pub fn translate(&mut self, rounds: u32) -> Result<(), Refusal>
        ensures { (m : Model) → Keeps V.meaning self.old m → (result ≡ translate_answer m rounds) × Keeps V.meaning self.new (next V.meaning m (translate rounds)) }
    {
        self.session.translate(rounds)?;
        self.translated();
        Ok(())
    }
}
