// The thread machine on one table.
ghost use Rattle.std.specs.Prelude.{◌≤◌};

use kinds::Kind;
use std::marker::PhantomData;
use tables::table::Table;

mod makes;

// A machine with no rounds, or whose table has no threads, has no slots: its runs are full at once.
#[derive(Drop)]
pub struct Machine<V: Kind> {
    pub table: Table,
    pub rounds: u8,
    kind: PhantomData<V>,
    ghost few: { rounds ≤ 8 },
}
