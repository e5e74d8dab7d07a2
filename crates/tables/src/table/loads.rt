// Load.
ghost use Rattle.std.specs.Prelude.{◌≡◌, ◌+◌, ◌^◌, ◌<◌, ◌≤◌, true, false, length, is_ok, IfOk, filter};
ghost use Rattle.records.specs.Lines.{lines as lines_of, sc, th};
ghost use Rattle.tables.specs.Program.{bare, with_record, behind, decoded};
ghost use Rattle.questions.specs.Question.{question as asked};
ghost use Rattle.tables.specs.Tables.{view, loaded};
ghost use Rattle.questions.specs.Answer.{accepted};
ghost use Rattle.tables.specs.Encoded.{encoded};
ghost use Rattle.tables.specs.WellFormed.{WellFormed};

use crate::table::Table;
use crate::text::ThreadText;
use kinds::Kind;
use questions::question::question;
use records::body::{statement, word};
use records::reader::{Line, Record, lines};
use records::refusal::LoadError;
use records::reserved::Reserved;
use std::alloc::{AllocError, Global};

impl Table {
    // A table with no program. Only here can memory be short.
    pub fn new(heap: Global) -> Result<Table, AllocError>
        ensures { IfOk result (λ t. view t ≡ bare 0) }
    {
        Ok(Table {
            mutexes: 0,
            cells: Reserved::new(heap)?,
            texts: Reserved::new(heap)?,
            statements: Reserved::new(heap)?,
        })
    }

    fn clear(&mut self, mutexes: u8)
        ensures { view self.new ≡ bare mutexes }
    {
        self.mutexes = mutexes;
        self.cells.clear();
        self.texts.clear();
        self.statements.clear();
    }

    // Adds what the record in line `i` says; the next text's statements start at `first`.
    fn add(&mut self, first: usize, i: usize, line: &Line) -> usize
        requires low { first < 2 ^ 32 }
        requires wide { sc line.now ≡ true → length (view self.old).cells < 16 }
        requires deep { th line.now ≡ true → length (view self.old).texts < 8 }
        requires long { length (view self.old).statements < 409 }
        ensures after { view self.new ≡ with_record (view self.old) first line.now }
        ensures next { result ≡ behind first line.now }
        ensures near { result ≤ first + 255 }
    {
        match Record::read(i, line) {
            Some(Record::Sc(_, body)) => {
                self.cells.push(word(body));
                first
            }
            Some(Record::Th(_, body)) => {
                self.texts.push(ThreadText {
                    locals: body[1],
                    first,
                    size: body[2],
                });
                first + usize::from(body[2])
            }
            Some(Record::St(_, body)) => {
                self.statements.push(statement(body));
                first
            }
            Some(Record::Pg(_, _)) | None => first,
        }
    }

    // Takes the place of the program by that of a file.
    fn fill(&mut self, file: &[u8])
        requires some { 10 ≤ length file.now }
        requires few { length file.now ≤ 4090 }
        requires wide { length (filter sc (lines_of file.now)) ≤ 16 }
        requires deep { length (filter th (lines_of file.now)) ≤ 8 }
        ensures { view self.new ≡ decoded file.now }
    {
        self.clear(file[4]);
        let mut first = 0;
        for (i, line) in lines(file).iter().enumerate() {
            first = self.add(first, i, line);
        }
    }

    // Load: the first no, or the program of the file in the place of the old one.
    pub fn load<V: Kind>(&mut self, file: &[u8]) -> Result<(), LoadError>
        ensures answer { result ≡ asked V.meaning file.now }
        ensures after { view self.new ≡ loaded (asked V.meaning file.now) (decoded file.now) (view self.old) }
        ensures kept { is_ok result ≡ false → self.new ≡ self.old }
        ensures well { asked V.meaning file.now ≡ accepted → WellFormed V.meaning (view self.new) }
        ensures back { asked V.meaning file.now ≡ accepted → encoded V.meaning.byte (view self.new) ≡ file.now }
    {
        question::<V>(file)?;
        self.fill(file);
        Ok(())
    }
}
