// What look finds out about a schedule.
ghost use Rattle.std.specs.Prelude.{◌≡◌};
ghost use Rattle.look.specs.Looks.{run_answer};
ghost use Rattle.threads.specs.Machines.{program};

use kinds::Kind;
use records::refusal::Refusal;
use reports::report::Report;
use threads::machine::Machine;

// A run over a schedule: the first `report.read` counts and the program's own cells say something.
#[derive(Clone, Copy)]
pub struct Run {
    pub report: Report,
    pub counts: [u8; 64],
    pub cells: [u32; 16],
}

// A schedule played on a machine.
pub fn run_of<V: Kind>(machine: &Machine<V>, numbers: &[u8]) -> Result<Run, Refusal>
    ensures { result ≡ run_answer V.meaning (program machine.now) machine.now.rounds numbers.now }
{
    let mut counts = [0; 64];
    let mut cells = [0; 16];
    let report = machine.play(numbers, &mut counts, &mut cells)?;
    Ok(Run {
        report,
        counts,
        cells,
    })
}
