// The questions on one record, in their order: the first no refuses.
ghost use Rattle.std.specs.Prelude.{◌≡◌};
ghost use Rattle.records.specs.Lines.{seen};
ghost use Rattle.records.specs.Verdict.{bad};
ghost use Rattle.questions.specs.Asks.{ask_header, ask_cell, ask_thread, ask_fields, ask_known, ask_statement, ask as asked, unmarked, exists as there, target as aimed, named as created_before};

use crate::context::{Context, Due};
use kinds::Kind;
use records::body::{Body, Used, fields, statement, unused, word};
use records::reader::Record;
use records::refusal::{RecordError, Refusal, require};
use records::statement::{Place, Statement, Thread};

fn header<V: Kind>(body: &Body) -> Result<(), RecordError>
    ensures { result ≡ ask_header V.meaning body.now }
{
    require(body[0] == V::kind_byte(), Refusal::KindByte, 2)?;
    require(body[1] <= 16, Refusal::Counts, 3)?;
    require(body[2] <= 8, Refusal::Counts, 4)?;
    require(1 <= body[3] && body[3] <= 8, Refusal::Counts, 5)?;
    unused(
        body,
        Used {
            d: true,
            a: true,
            b: true,
            c: false,
        },
    )
}

// The cell that has to have the index `i`.
fn cell<V: Kind>(i: u8, body: &Body) -> Result<(), RecordError>
    ensures { result ≡ ask_cell V.meaning i body.now }
{
    require(body[0] == i, Refusal::Index, 2)?;
    unused(
        body,
        Used {
            d: false,
            a: false,
            b: false,
            c: true,
        },
    )?;
    require(V::lawful(word(body)), Refusal::Code, 6)
}

// The thread that has to have the index `i`.
fn thread(i: u8, body: &Body) -> Result<(), RecordError>
    ensures { result ≡ ask_thread i body.now }
{
    require(body[0] == i, Refusal::Index, 2)?;
    require(body[1] <= 8, Refusal::ThreadSize, 3)?;
    require(1 <= body[2] && body[2] <= 48, Refusal::ThreadSize, 4)?;
    unused(
        body,
        Used {
            d: true,
            a: true,
            b: false,
            c: false,
        },
    )
}

impl Context {
    // Is there a cell at the place?
    fn exists(&self, p: Place) -> bool
        ensures { result ≡ there self.now p }
    {
        match p {
            Place::Shared(n) => n < self.cells,
            Place::Local(n) => n < self.locals,
        }
    }

    // Has an earlier CREATE named the thread?
    fn named(&self, j: Thread) -> bool
        ensures { result ≡ created_before self.now j.0 }
    {
        self.created.get(usize::from(j.0)).copied().unwrap_or(false)
    }

    // Does the label `t` lie above the statement's own number `n`, and at most at the end?
    fn target(&self, n: u8, t: u32) -> Result<(), RecordError>
        ensures { result ≡ aimed self.now n t }
    {
        require(
            u32::from(n) < t && t <= u32::from(self.size),
            Refusal::Target,
            6,
        )
    }

    // The fields of the statement numbered `n`.
    fn fields<V: Kind>(&self, n: u8, body: &Body, s: Statement) -> Result<(), RecordError>
        ensures { result ≡ ask_fields V.meaning self.now n body.now s }
    {
        match s {
            Statement::Set { d, c } => {
                require(self.exists(d), Refusal::Place, 3)?;
                require(V::lawful(c), Refusal::Code, 6)
            }
            Statement::Copy { d, a } => {
                require(self.exists(d), Refusal::Place, 3)?;
                require(self.exists(a), Refusal::Place, 4)
            }
            Statement::Sum { d, a, b }
            | Statement::Difference { d, a, b }
            | Statement::Less { d, a, b }
            | Statement::Same { d, a, b } => {
                require(self.exists(d), Refusal::Place, 3)?;
                require(self.exists(a), Refusal::Place, 4)?;
                require(self.exists(b), Refusal::Place, 5)
            }
            Statement::Jump { .. } => self.target(n, word(body)),
            Statement::Branch { a, .. } => {
                require(self.exists(a), Refusal::Place, 4)?;
                self.target(n, word(body))
            }
            Statement::Assume { a } | Statement::Assert { a } => {
                require(self.exists(a), Refusal::Place, 4)
            }
            Statement::Init { m }
            | Statement::Destroy { m }
            | Statement::Lock { m }
            | Statement::Unlock { m } => require(m.0 < self.mutexes, Refusal::Mutex, 3),
            Statement::Create { j } => {
                require(1 <= j.0 && j.0 < self.threads, Refusal::Thread, 3)?;
                require(!self.named(j), Refusal::CreatedTwice, 3)
            }
            Statement::Join { j } => require(j.0 < self.threads, Refusal::Thread, 3),
        }
    }

    // The questions on a statement whose op is known.
    fn known<V: Kind>(&self, n: u8, body: &Body) -> Result<(), RecordError>
        ensures { result ≡ ask_known V.meaning self.now n body.now }
    {
        unused(body, fields(body[0]))?;
        self.fields::<V>(n, body, statement(body))
    }

    // The questions on the statement numbered `n`.
    fn statement<V: Kind>(&self, n: u8, body: &Body) -> Result<(), RecordError>
        ensures { result ≡ ask_statement V.meaning self.now n body.now }
    {
        require(1 <= body[0] && body[0] <= 16, Refusal::Operation, 2)?;
        self.known::<V>(n, body)
    }

    // The answer to a record that is not the one due.
    pub(crate) fn unmarked(&self) -> RecordError
        ensures { bad result.refusal result.byte ≡ unmarked self.now.due }
    {
        let refusal = match self.due {
            Due::End => Refusal::Trailing,
            _ => Refusal::Mark,
        };
        RecordError { refusal, byte: 0 }
    }

    // The questions on a record: is it the one due, and then its own.
    pub fn ask<V: Kind>(&self, r: Record) -> Result<(), RecordError>
        ensures { result ≡ asked V.meaning self.now (seen r.entry) }
    {
        match (self.due, r) {
            (Due::Header, Record::Pg(_, body)) => header::<V>(body),
            (Due::Cell(i), Record::Sc(_, body)) => cell::<V>(i, body),
            (Due::Thread(i), Record::Th(_, body)) => thread(i, body),
            (Due::Statement(n), Record::St(_, body)) => self.statement::<V>(n, body),
            _ => Err(self.unmarked()),
        }
    }
}
