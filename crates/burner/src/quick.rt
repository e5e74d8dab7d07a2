// Quick: Load, Translate and Walk on a job of its own.
ghost use Rattle.std.specs.Prelude.{◌≡◌};
ghost use Rattle.hosts.specs.Knowns.{kind_of};
ghost use Rattle.jobs.specs.Keeps.{Keeps};
ghost use Rattle.jobs.specs.Models.{Model};
ghost use Rattle.burner.specs.Quicks.{counts_of, UnlessMemory, Quick};

use hosts::known::KnownKind;
use hosts::problem::Problem;
use hosts::told::tell;
use jobs::job::Job;
use kinds::{Kind, Truth, Words};
use std::alloc::Global;
use walks::counts::Counts;

// The three calls, on a job that has made none yet or any.
fn walk_file<V: Kind>(job: &mut Job<V>, file: &[u8], rounds: u32, b: u32) -> Result<Counts, Problem>
    ensures { (m : Model) → Keeps V.meaning job.old m → result ≡ counts_of V.meaning file.now rounds b }
{
    job.load(file)?;
    job.translate(rounds)?;
    Ok(job.walk(b)?)
}

// The same on a new job, if there is memory for one.
fn walk_new<V: Kind>(heap: Global, file: &[u8], rounds: u32, b: u32) -> Result<Counts, Problem>
    ensures { UnlessMemory result (counts_of V.meaning file.now rounds b) }
{
    let mut job = Job::<V>::new(heap)?;
    walk_file(&mut job, file, rounds, b)
}

// The same for the kind that the file names.
fn walk_kind(heap: Global, file: &[u8], rounds: u32, b: u32) -> Result<Counts, Problem>
    ensures { UnlessMemory result (counts_of (kind_of file.now) file.now rounds b) }
{
    match KnownKind::of(file) {
        KnownKind::Words => walk_new::<Words>(heap, file, rounds, b),
        KnownKind::Truth => walk_new::<Truth>(heap, file, rounds, b),
    }
}

// Quick. C: uint32_t quick(const uint8_t *file, size_t file_len, uint32_t rounds, uint32_t b, uint8_t *out, size_t out_len);
#[unsafe(no_mangle)]
pub extern "C" fn quick(heap: Global, file: &[u8], rounds: u32, b: u32, out: &mut [u8]) -> u32
    ensures { Quick file.now rounds b result out.new out.old }
{
    tell(out, || walk_kind(heap, file, rounds, b))
}
