// A machine and its rounds.
ghost use Rattle.std.specs.Prelude.{◌≡◌, false, is_ok};
ghost use Rattle.threads.specs.Machines.{rounds_asked, rounds_after};

use crate::machine::Machine;
use kinds::Kind;
use records::refusal::Refusal;
use std::marker::PhantomData;
use tables::table::Table;

impl<V: Kind> Machine<V> {
    // A machine that has no rounds yet.
    pub fn new(table: Table) -> Machine<V>
        ensures { (result.table ≡ table) × (result.rounds ≡ 0) }
    {
        Machine {
            table,
            rounds: 0,
            kind: PhantomData,
        }
    }

    // Sets the number of rounds, from 1 to 8.
    pub fn set_rounds(&mut self, rounds: u32) -> Result<(), Refusal>
        ensures answer { result ≡ rounds_asked rounds }
        ensures after { (self.new.table ≡ self.old.table) × (self.new.rounds ≡ rounds_after rounds self.old.rounds) }
        ensures kept { is_ok result ≡ false → self.new ≡ self.old }
    {
        if rounds < 1 || rounds > 8 {
            return Err(Refusal::Rounds);
        }
        self.rounds = rounds as u8;
        Ok(())
    }
}
