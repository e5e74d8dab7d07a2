// What a thread does in its slot.
ghost use Rattle.std.specs.Prelude.{◌≡◌, ◌+◌, ◌<◌, Err};
ghost use Rattle.tables.specs.Tables.{view};
ghost use Rattle.threads.specs.Slots.{run, ran, slot_of, counted};

use crate::step::step;
use kinds::Kind;
use records::statement::Thread;
pub use reports::report::SlotCount;
use reports::stop::Stop;
use states::state::State;
use tables::table::Table;

// How a slot ended, and how many statements were carried out in it. A failing one counts, a blocking one does not.
#[derive(Clone, Copy)]
pub struct Slot {
    pub end: Result<(), Stop>,
    pub count: SlotCount,
}

// The slot that a statement stops after `d` others.
fn stopped(stop: Stop, d: u8) -> Slot
    requires { d < 255 }
    ensures { result ≡ slot_of (Err stop) (counted stop d) }
{
    let count = match stop {
        Stop::Failed => d + 1,
        Stop::Cut => d,
    };
    Slot {
        end: Err(stop),
        count: SlotCount(count),
    }
}

// Thread `i` carries out `n` statements, if it can.
pub fn run_slot<V: Kind>(state: &mut State, table: &Table, i: Thread, n: SlotCount) -> Slot
    ensures { ran result state.new ≡ run V.meaning (view table.now) i n.0 0 state.old }
{
    // There is no list of statements to go over: each says which one is next.
    for d in 0..n.0 {
        if let Err(stop) = step::<V>(state, table, i) {
            return stopped(stop, d);
        }
    }
    Slot {
        end: Ok(()),
        count: n,
    }
}
