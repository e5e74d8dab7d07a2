// The totals of a survey.
ghost use Rattle.std.specs.Prelude.{◌≡◌};
ghost use Rattle.surveys.specs.Totals.{totals_of};
ghost use Rattle.threads.specs.Machines.{plays};
ghost use Rattle.threads.specs.Points.{Ready};

use kinds::Kind;
use threads::machine::Machine;
use walks::counts::Counts;
use walks::walk::Walk;

// Visits the first `b` schedules, or all.
pub fn totals<V: Kind>(machine: &Machine<V>, b: u32) -> Counts
    ensures { Ready V.meaning machine.now → result ≡ totals_of (λ ns. (plays V.meaning machine.now ns).outcome) b }
{
    let mut walk = Walk::begin(machine);
    let answer = walk.advance(machine, b);
    walk.counts(answer)
}
