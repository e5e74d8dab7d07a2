// A machine on the program of a file.
ghost use Rattle.surveys.specs.Setups.{Made};

use hosts::problem::Problem;
use kinds::Kind;
use std::alloc::Global;
use tables::table::Table;
use threads::machine::Machine;

// The machine on the program of a file.
pub fn machine_of<V: Kind>(heap: Global, file: &[u8], rounds: u32) -> Result<Machine<V>, Problem>
    ensures { Made V.meaning file.now rounds result }
{
    let mut table = Table::new(heap)?;
    table.load::<V>(file)?;
    let mut machine = Machine::new(table);
    machine.set_rounds(rounds)?;
    Ok(machine)
}
