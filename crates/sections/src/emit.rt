// Emit.
ghost use Rattle.std.specs.Prelude.{◌≡◌, ◌+◌, ◌*◌, ◌<◌, ◌≤◌, length};
ghost use Rattle.records.specs.Wrote.{wrote, counted, filled};
ghost use Rattle.sequences.specs.Sequences.{Holds, guide_of, sections_of};
ghost use Rattle.tables.specs.Tables.{view};
ghost use Rattle.tables.specs.WellFormed.{WellFormed};
ghost use Rattle.sections.specs.Rows.{section_bytes};
ghost use Rattle.sections.specs.Emitted.{sections_from, emitted_by, emitted, emitted_length};

use crate::owed::OwedCount;
use crate::owner::Owner;
use crate::rows::program_row;
use kinds::Kind;
use records::refusal::Refusal;
use records::row::{put, room_for};
use records::statement::Thread;
use sequences::instruction::Instruction;
use sequences::sequence::Sequence;
use tables::table::Table;

// Writes a whole section.
fn write_section(out: &mut [u8], at: usize, owner: Owner, code: &[Instruction]) -> usize
    requires room { at + (10 + 10 * length code.now) ≤ length out.old }
    requires few { length code.now ≤ 257 }
    ensures after { out.new ≡ wrote out.old at (section_bytes owner code.now) }
    ensures next { result ≡ at + (10 + 10 * length code.now) }
{
    let Ok(mut owed) = OwedCount::begin(out, at, owner) else {
        unreachable();
    };
    for x in code {
        let Ok(()) = owed.add(out, *x) else {
            unreachable();
        };
    }
    match owed.close(out) {
        Ok(end) => end,
        Err(_owed) => unreachable(),
    }
}

// The file of what a sequence holds of a table over so many rounds.
#[derive(Drop)]
struct File<'a, V: Kind> {
    table: &'a Table,
    rounds: u8,
    sequence: &'a Sequence<V>,
}

impl<'a, V: Kind> File<'a, V> {
    // Writes the sections of all threads.
    fn write_sections(&self, out: &mut [u8], start: usize) -> usize
        requires { start + length (sections_from (sections_of self.now.sequence.now) 0 (view self.now.table.now).texts) ≤ length out.old }
        ensures after { out.new ≡ wrote out.old start (sections_from (sections_of self.now.sequence.now) 0 (view self.now.table.now).texts) }
        ensures next { result ≡ start + length (sections_from (sections_of self.now.sequence.now) 0 (view self.now.table.now).texts) }
    {
        let mut at = start;
        for i in 0..self.table.threads() {
            let i = Thread(i);
            let owner = Owner::Thread {
                i,
                locals: self.table.text(i).locals,
            };
            at = write_section(out, at, owner, self.sequence.section(i));
        }
        at
    }

    // How many bytes the sections of all threads have.
    fn sections_len(&self) -> usize
        ensures few { result ≤ 20480 }
        ensures value { result ≡ length (sections_from (sections_of self.now.sequence.now) 0 (view self.now.table.now).texts) }
    {
        let mut bytes = 0;
        for i in 0..self.table.threads() {
            bytes += 10 + 10 * self.sequence.section(Thread(i)).len();
        }
        bytes
    }

    // How many bytes the file has.
    fn len(&self) -> usize
        ensures { result ≡ emitted_length (view self.now.table.now) (guide_of self.now.sequence.now) (sections_of self.now.sequence.now) }
    {
        20 + 10 * self.table.cells().len() + 10 * self.sequence.driver().len() + self.sections_len()
    }

    // Writes the file to a buffer that is long enough.
    fn write(&self, out: &mut [u8])
        requires { length (emitted_by V.meaning.byte (view self.now.table.now) self.now.rounds self.now.sequence.now) ≤ length out.old }
        ensures { out.new ≡ wrote out.old 0 (emitted_by V.meaning.byte (view self.now.table.now) self.now.rounds self.now.sequence.now) }
    {
        let cells = put(out, 0, program_row::<V>(self.table, self.rounds));
        let driver = self.table.save_cells(out, cells);
        let threads = write_section(out, driver, Owner::Driver, self.sequence.driver());
        let _end = self.write_sections(out, threads);
    }
}

// Emit: writes the file of a table's sequential program to the front of the buffer, and answers its length.
pub fn emit<V: Kind>(
    table: &Table,
    rounds: u8,
    sequence: &Sequence<V>,
    out: &mut [u8],
) -> Result<usize, Refusal>
    ensures answer { result ≡ counted out.old (emitted_by V.meaning.byte (view table.now) rounds sequence.now) }
    ensures after { out.new ≡ filled out.old (emitted_by V.meaning.byte (view table.now) rounds sequence.now) }
    ensures translated { Holds sequence.now (view table.now) rounds → emitted_by V.meaning.byte (view table.now) rounds sequence.now ≡ emitted V.meaning.byte (view table.now) rounds }
    ensures few { WellFormed V.meaning (view table.now) → rounds ≤ 8 → length (emitted V.meaning.byte (view table.now) rounds) ≤ 22110 }
{
    let file = File {
        table,
        rounds,
        sequence,
    };
    let n = file.len();
    room_for(out, n)?;
    file.write(out);
    Ok(n)
}
