// The section writer: a section is begun, gets its instructions, and is closed, in a buffer that is lent call by call.
ghost use Rattle.std.specs.Prelude.{◌≡◌, ◌+◌, ◌≤◌, length};
ghost use Rattle.records.specs.Rows.{four};
ghost use Rattle.records.specs.Wrote.{wrote};
ghost use Rattle.sections.specs.Owed.{within, begun, begun_in, added, added_to, added_in, closed, closed_in};

use crate::owner::Owner;
use crate::rows::{instruction_row, section_row};
use records::refusal::Refusal;
use records::row::put;
use sequences::instruction::Instruction;

// A section that was begun, and owes its instruction count: where it starts, and how many instructions it has so far.
// It is not Drop, so the compiler refuses a program that lets it go. Only `close` spends it.
pub struct OwedCount {
    at: usize,
    count: u32,
}

// A closing that was refused. The section stays owed.
pub struct Unclosed {
    pub owed: OwedCount,
    pub refusal: Refusal,
}

// Writes a section's count into its SE record: the last four bytes, highest first.
fn put_count(out: &mut [u8], at: usize, count: u32)
    requires { at + 10 ≤ length out.old }
    ensures { out.new ≡ wrote out.old (at + 6) (four count) }
{
    out[at + 6..at + 10].copy_from_slice(&count.to_be_bytes());
}

impl OwedCount {
    // Whether a buffer of so many bytes has room for the section and so many bytes behind it.
    fn fits(&self, len: usize, more: usize) -> bool
        requires { more ≤ 10 }
        ensures { result ≡ within self.now len more }
    {
        self.at <= len && len - self.at >= 10 * self.count as usize + 10 + more
    }

    // Begins a section at a place of the buffer: writes its SE record, with the count 0.
    pub fn begin(out: &mut [u8], at: usize, owner: Owner) -> Result<OwedCount, Refusal>
        ensures answer { result ≡ begun (length out.old) at }
        ensures after { out.new ≡ begun_in out.old at owner }
    {
        if out.len() < 10 || out.len() - 10 < at {
            return Err(Refusal::BufferShort);
        }
        let _next = put(out, at, section_row(owner, 0));
        Ok(OwedCount { at, count: 0 })
    }

    // Writes one instruction behind those that are there.
    pub fn add(&mut self, out: &mut [u8], instruction: Instruction) -> Result<(), Refusal>
        ensures answer { result ≡ added self.old (length out.old) }
        ensures token { self.new ≡ added_to self.old (length out.old) }
        ensures after { out.new ≡ added_in self.old instruction out.old }
    {
        if self.count == u32::MAX || !self.fits(out.len(), 10) {
            return Err(Refusal::BufferShort);
        }
        let next = self.at + 10 * self.count as usize + 10;
        let _next = put(out, next, instruction_row(instruction));
        self.count += 1;
        Ok(())
    }

    // Writes the count into the section's SE record, and answers where the next section may begin.
    pub fn close(self, out: &mut [u8]) -> Result<usize, Unclosed>
        ensures answer { result ≡ closed self (length out.old) }
        ensures after { out.new ≡ closed_in self out.old }
    {
        if !self.fits(out.len(), 0) {
            return Err(Unclosed {
                owed: self,
                refusal: Refusal::BufferShort,
            });
        }
        let OwedCount { at, count } = self;
        put_count(out, at, count);
        Ok(at + 10 * count as usize + 10)
    }
}
