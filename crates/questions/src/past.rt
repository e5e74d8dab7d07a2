// What is due behind a record.
ghost use Rattle.std.specs.Prelude.{◌≡◌, ◌<◌};
ghost use Rattle.records.specs.Lines.{seen};
ghost use Rattle.questions.specs.Past.{past as passed, start as beginning, names, from_cell, from_thread, from_statement, begun, past_thread, past_statement, Sound};

use crate::context::{Context, Due};
use records::body::Body;
use records::reader::Record;

// What is due from thread `i` on.
fn from_thread(threads: u8, i: u8) -> Due
    ensures { result ≡ from_thread threads i }
{
    if i < threads {
        Due::Thread(i)
    } else {
        Due::End
    }
}

// What is due from cell `i` on.
fn from_cell(cells: u8, threads: u8, i: u8) -> Due
    ensures { result ≡ from_cell cells threads i }
{
    if i < cells {
        Due::Cell(i)
    } else {
        from_thread(threads, 0)
    }
}

// What is due from statement `n` of thread `i` on.
fn from_statement(size: u8, threads: u8, i: u8, n: u8) -> Due
    requires { i < threads }
    ensures { result ≡ from_statement size threads i n }
{
    if n < size {
        Due::Statement(n)
    } else {
        from_thread(threads, i + 1)
    }
}

// The threads that a CREATE has named, behind a statement.
fn named(mut created: [bool; 8], body: &Body) -> [bool; 8]
    ensures { result ≡ names created body.now }
{
    let j = usize::from(body[1]);
    if body[0] == 15 && j < 8 {
        created[j] = true;
    }
    created
}

impl Context {
    // Before the first record.
    pub fn start() -> Context
        ensures { result ≡ beginning }
    {
        Context {
            due: Due::Header,
            cells: 0,
            mutexes: 0,
            threads: 0,
            thread: 0,
            locals: 0,
            size: 0,
            created: [false; 8],
        }
    }

    // Behind a PG record.
    fn begun(body: &Body) -> Context
        ensures { result ≡ begun body.now }
    {
        Context {
            due: from_cell(body[1], body[3], 0),
            cells: body[1],
            mutexes: body[2],
            threads: body[3],
            ..Context::start()
        }
    }

    // Behind the TH record of thread `i`.
    fn past_thread(&self, i: u8, body: &Body) -> Context
        requires sound { i < self.now.threads }
        ensures { result ≡ past_thread self.now i body.now }
    {
        Context {
            due: from_statement(body[2], self.threads, i, 0),
            thread: i,
            locals: body[1],
            size: body[2],
            ..*self
        }
    }

    // Behind the ST record of the thread's statement `n`.
    fn past_statement(&self, n: u8, body: &Body) -> Context
        requires sound { self.now.thread < self.now.threads }
        requires due { n < self.now.size }
        ensures { result ≡ past_statement self.now n body.now }
    {
        Context {
            due: from_statement(self.size, self.threads, self.thread, n + 1),
            created: named(self.created, body),
            ..*self
        }
    }

    // The context behind a record that is the one due.
    pub fn past(&self, r: Record) -> Context
        requires sound { Sound self.now }
        ensures { result ≡ passed self.now (seen r.entry) }
    {
        let body = match r {
            Record::Pg(_, body) | Record::Sc(_, body) | Record::Th(_, body) | Record::St(_, body) =>
                body,
        };
        match self.due {
            Due::Header => Context::begun(body),
            Due::Cell(i) => Context {
                due: from_cell(self.cells, self.threads, i + 1),
                ..*self
            },
            Due::Thread(i) => self.past_thread(i, body),
            Due::Statement(n) => self.past_statement(n, body),
            Due::End => *self,
        }
    }
}
