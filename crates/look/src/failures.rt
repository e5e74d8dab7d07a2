// A walk over all schedules, which keeps the first that fail.
ghost use Rattle.std.specs.Prelude.{◌≡◌, ◌+◌, ◌^◌, ◌<◌, ◌≤◌, IfOk, vec_len};
ghost use Rattle.look.specs.Surveys.{Surveyed};
ghost use Rattle.threads.specs.Machines.{plays};
ghost use Rattle.threads.specs.Points.{Ready, Follows};
ghost use Rattle.walks.specs.Tallies.{visited};
ghost use Rattle.walks.specs.Walks.{Tied};

use kinds::Kind;
use std::alloc::{AllocError, Global};
use threads::machine::Machine;
use threads::point::Point;
use walks::outcome::Ending;
use walks::walk::{Answer, Walk};

// The first failing schedules, at most so many.
#[derive(Drop)]
pub struct Failures {
    pub lists: Vec<Vec<u8>>,
    pub most: usize,
    ghost few: { vec_len lists ≤ most },
}

impl Failures {
    pub fn new(heap: Global, most: usize) -> Failures
        ensures { (result.most ≡ most) × (vec_len result.lists ≡ 0) }
    {
        Failures {
            lists: Vec::new(heap),
            most,
        }
    }

    // Keeps a schedule, unless there are enough.
    fn keep(&mut self, heap: Global, numbers: &[u8]) -> Result<(), AllocError>
        ensures { self.new.most ≡ self.old.most }
    {
        if self.lists.len() < self.most {
            let list = Vec::from_slice(heap, numbers)?;
            self.lists.push(list)?;
        }
        Ok(())
    }
}

// Visits the next `b` schedules, or those left. Done says that none is left.
pub fn visit_some<V: Kind>(
    heap: Global,
    walk: &mut Walk<Point>,
    machine: &Machine<V>,
    b: u32,
    failures: &mut Failures,
) -> Result<Answer, AllocError>
    requires { visited walk.old.tally + b < 2 ^ 32 }
    ensures { IfOk result (λ a. Ready V.meaning machine.now → Tied (λ ns. (plays V.meaning machine.now ns).outcome) (Follows V.meaning machine.now) walk.old → Surveyed V.meaning machine.now walk.new a) }
{
    for _ in 0..b {
        match walk.visit(machine) {
            None => return Ok(Answer::Done),
            Some(Ending::Failed) => failures.keep(heap, walk.latest())?,
            Some(_) => {}
        }
    }
    Ok(Answer::Spent)
}
