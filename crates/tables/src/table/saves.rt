// Save.
ghost use Rattle.std.specs.Prelude.{◌≡◌, ℕ, ◌+◌, ◌≤◌, length, take, drop};
ghost use Rattle.tables.specs.Encoded.{cell_bytes, own_bytes, own_thread_bytes, thread_bytes, header_row, encoded};
ghost use Rattle.questions.specs.Question.{question as asked};
ghost use Rattle.tables.specs.Tables.{view};
ghost use Rattle.questions.specs.Answer.{accepted};
ghost use Rattle.tables.specs.WellFormed.{WellFormed};
ghost use Rattle.records.specs.Wrote.{wrote, counted, filled};

use crate::table::Table;
use crate::text::ThreadText;
use kinds::Kind;
use records::refusal::Refusal;
use records::row::{Mark, put, room_for, statement_row};
use records::statement::Statement;

// Of the statements that are left, those of a text, and those behind them.
fn part(statements: &[Statement], t: ThreadText) -> (&[Statement], &[Statement])
    ensures own { result.0.now ≡ take t.size statements.now }
    ensures rest { result.1.now ≡ drop t.size statements.now }
{
    statements.split_at(statements.len().min(usize::from(t.size)))
}

// Writes the records of some statements.
fn save_statements(out: &mut [u8], start: usize, own: &[Statement]) -> usize
    requires { start + length (own_bytes own.now) ≤ length out.old }
    ensures after { out.new ≡ wrote out.old start (own_bytes own.now) }
    ensures next { result ≡ start + length (own_bytes own.now) }
{
    let mut at = start;
    for s in own {
        at = put(out, at, statement_row(*s));
    }
    at
}

// Writes the record of thread `i` and those of its statements.
fn save_text(out: &mut [u8], start: usize, i: u8, t: ThreadText, own: &[Statement]) -> usize
    requires { start + length (own_thread_bytes i t own.now) ≤ length out.old }
    ensures after { out.new ≡ wrote out.old start (own_thread_bytes i t own.now) }
    ensures next { result ≡ start + length (own_thread_bytes i t own.now) }
{
    let at = put(out, start, Mark::Th.row(i, t.locals, t.size, 0, 0));
    save_statements(out, at, own)
}

impl Table {
    // Writes the cells' records, which the sequential program's file has too.
    pub fn save_cells(&self, out: &mut [u8], start: usize) -> usize
        requires { start + length (cell_bytes 0 (view self.now).cells) ≤ length out.old }
        ensures after { out.new ≡ wrote out.old start (cell_bytes 0 (view self.now).cells) }
        ensures next { result ≡ start + length (cell_bytes 0 (view self.now).cells) }
    {
        let mut at = start;
        for (i, code) in self.cells().iter().enumerate() {
            at = put(out, at, Mark::Sc.row(i as u8, 0, 0, 0, *code));
        }
        at
    }

    // Writes the threads' records.
    fn save_threads(&self, out: &mut [u8], start: usize) -> usize
        requires { start + length (thread_bytes 0 (view self.now).texts (view self.now).statements) ≤ length out.old }
        ensures after { out.new ≡ wrote out.old start (thread_bytes 0 (view self.now).texts (view self.now).statements) }
        ensures next { result ≡ start + length (thread_bytes 0 (view self.now).texts (view self.now).statements) }
    {
        let mut at = start;
        let mut left = self.statements.as_slice();
        for (i, t) in self.texts.as_slice().iter().enumerate() {
            let (own, rest) = part(left, *t);
            at = save_text(out, at, i as u8, *t, own);
            left = rest;
        }
        at
    }

    // How many bytes the threads' records have.
    fn threads_len(&self) -> usize
        ensures few { result ≤ 4170 }
        ensures value { result ≡ length (thread_bytes 0 (view self.now).texts (view self.now).statements) }
    {
        let mut bytes = 0;
        let mut left = self.statements.as_slice();
        for t in self.texts.as_slice() {
            let (own, rest) = part(left, *t);
            bytes += 10 + 10 * own.len();
            left = rest;
        }
        bytes
    }

    // How many bytes the program's file has.
    fn file_len(&self) -> usize
        ensures { (byte : ℕ) → result ≡ length (encoded byte (view self.now)) }
    {
        10 + 10 * self.cells.len() + self.threads_len()
    }

    fn header<V: Kind>(&self) -> [u8; 10]
        ensures { result ≡ header_row V.meaning.byte (view self.now) }
    {
        Mark::Pg.row(
            V::kind_byte(),
            self.cells.len() as u8,
            self.mutexes,
            self.threads(),
            0,
        )
    }

    // Writes the program's file to a buffer that is long enough.
    fn write<V: Kind>(&self, out: &mut [u8])
        requires { length (encoded V.meaning.byte (view self.now)) ≤ length out.old }
        ensures { out.new ≡ wrote out.old 0 (encoded V.meaning.byte (view self.now)) }
    {
        let at = put(out, 0, self.header::<V>());
        let next = self.save_cells(out, at);
        let _end = self.save_threads(out, next);
    }

    // Save: writes the program's file to the front of the buffer, and answers its length.
    pub fn save<V: Kind>(&self, out: &mut [u8]) -> Result<usize, Refusal>
        ensures answer { result ≡ counted out.old (encoded V.meaning.byte (view self.now)) }
        ensures after { out.new ≡ filled out.old (encoded V.meaning.byte (view self.now)) }
        ensures again { WellFormed V.meaning (view self.now) → asked V.meaning (encoded V.meaning.byte (view self.now)) ≡ accepted }
    {
        let n = self.file_len();
        room_for(out, n)?;
        self.write::<V>(out);
        Ok(n)
    }
}
