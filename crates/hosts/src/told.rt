// What a host program in C or Rust is told, in a number and bytes.
ghost use Rattle.std.specs.Prelude.{◌≡◌, ◌≤◌, length};
ghost use Rattle.reports.specs.Reports.{front};
ghost use Rattle.hosts.specs.Tolds.{twelve, told, Told};

use crate::problem::Problem;
use records::refusal::Refusal;
use walks::counts::Counts;
use walks::walk::Answer;

// Writes failed, cut and full, four bytes each, highest first.
fn write_counts(out: &mut [u8], c: Counts)
    requires { 12 ≤ length out.old }
    ensures { out.new ≡ front (twelve c) out.old }
{
    let f = c.failed.to_be_bytes();
    let g = c.cut.to_be_bytes();
    let h = c.full.to_be_bytes();
    let bytes = [
        f[0], f[1], f[2], f[3], g[0], g[1], g[2], g[3], h[0], h[1], h[2], h[3],
    ];
    out[0..12].copy_from_slice(&bytes);
}

// Writes the counts and answers 0 where the walk is done and 1 where leaves are left; or answers the problem's number.
fn tell_counted(out: &mut [u8], counted: Result<Counts, Problem>) -> u32
    requires { 12 ≤ length out.old }
    ensures { told result out.new out.old counted }
{
    match counted {
        Err(problem) => u32::from(problem.number()),
        Ok(c) => {
            write_counts(out, c);
            match c.answer {
                Answer::Done => 0,
                Answer::Spent => 1,
            }
        }
    }
}

// Asks for twelve bytes of buffer first, and tells what a walk has counted only then.
pub fn tell<F: FnOnce() -> Result<Counts, Problem>>(out: &mut [u8], walk: F) -> u32
    requires { F.pre walk }
    ensures { Told (F.post walk) result out.new out.old }
{
    if out.len() < 12 {
        return u32::from(Refusal::BufferShort.number());
    }
    tell_counted(out, walk())
}
