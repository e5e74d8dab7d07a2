// Survey for a host program in C or Rust, on numbers and bytes.
ghost use Rattle.std.specs.Prelude.{◌≡◌, drop};
ghost use Rattle.hosts.specs.Knowns.{kind_of};
ghost use Rattle.surveys.specs.Hosts.{Counted, Survey};

use crate::setup::machine_of;
use crate::totals::totals;
use hosts::known::KnownKind;
use hosts::problem::Problem;
use hosts::told::tell;
use kinds::{Kind, Truth, Words};
use std::alloc::Global;
use walks::counts::Counts;

// The totals of a file's schedules.
fn counted<V: Kind>(heap: Global, file: &[u8], rounds: u32, b: u32) -> Result<Counts, Problem>
    ensures { Counted V.meaning file.now rounds b result }
{
    let machine = machine_of::<V>(heap, file, rounds)?;
    Ok(totals(&machine, b))
}

// The same for the kind that the file names.
fn counted_by_kind(heap: Global, file: &[u8], rounds: u32, b: u32) -> Result<Counts, Problem>
    ensures { Counted (kind_of file.now) file.now rounds b result }
{
    match KnownKind::of(file) {
        KnownKind::Words => counted::<Words>(heap, file, rounds, b),
        KnownKind::Truth => counted::<Truth>(heap, file, rounds, b),
    }
}

// Visits the first `b` schedules of a file over so many rounds, or all of them. Answers 0 where all were visited, 1 where
// some are left, and else the number of the refusal, or 99 where there is no memory for a table; only 0 and 1 write to `out`.
#[unsafe(no_mangle)]
pub extern "C" fn survey(heap: Global, file: &[u8], rounds: u32, b: u32, out: &mut [u8]) -> u32
    ensures told { Survey file.now rounds b result out.new out.old }
    ensures rest { drop 12 out.new ≡ drop 12 out.old }
{
    tell(out, || counted_by_kind(heap, file, rounds, b))
}
