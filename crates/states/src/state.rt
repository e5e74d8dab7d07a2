// The state of a run.
ghost use Rattle.std.specs.Prelude.{◌≡◌, ◌≤◌, length};
ghost use Rattle.tables.specs.Tables.{view};
ghost use Rattle.states.specs.States.{value, put, mutex, mark, padded, beginning};

use crate::entries::ThreadTable;
use kinds::Kind;
use records::lookup::{item_or, set_item};
use records::statement::{Mutex, Place, Thread};
use tables::table::Table;

#[derive(Clone, Copy)]
pub enum MutexState {
    Free,
    Destroyed,
    Held(Thread),
}

// A program with fewer cells, mutexes or threads leaves the rest of each table alone.
#[derive(Clone, Copy)]
pub struct State {
    pub cells: [u32; 16],
    pub mutexes: [MutexState; 8],
    pub threads: ThreadTable,
}

// The initial codes, and the fresh code in the cells that the program does not have. Sixteen cells hold no longer list, so
// none is asked of it: a total form would cut the list, and the callers' codes are never cut.
pub fn initial_cells<V: Kind>(codes: &[u32]) -> [u32; 16]
    requires { length codes.now ≤ 16 }
    ensures { result ≡ padded V.meaning codes.now }
{
    let mut cells = [V::fresh_code(); 16];
    cells[0..codes.len()].copy_from_slice(codes);
    cells
}

impl State {
    // The state at the start of a run.
    pub fn start<V: Kind>(table: &Table) -> State
        ensures { result ≡ beginning V.meaning (view table.now) }
    {
        State {
            cells: initial_cells::<V>(table.cells()),
            mutexes: [MutexState::Free; 8],
            threads: ThreadTable::start::<V>(),
        }
    }

    // The code that thread `i` reads at a place.
    pub fn value<V: Kind>(&self, i: Thread, p: Place) -> u32
        ensures { result ≡ value V.meaning self.now i.0 p }
    {
        match p {
            Place::Shared(n) => item_or(&self.cells, n, V::fresh_code()),
            Place::Local(n) => self.threads.local::<V>(i, n),
        }
    }

    // Thread `i` writes a code to a place.
    pub fn put(&mut self, i: Thread, p: Place, c: u32)
        ensures { self.new ≡ put self.old i.0 p c }
    {
        match p {
            Place::Shared(n) => set_item(&mut self.cells, n, c),
            Place::Local(n) => self.threads.set_local(i, n, c),
        }
    }

    // A mutex that the table does not have is free.
    pub fn mutex(&self, m: Mutex) -> MutexState
        ensures { result ≡ mutex self.now m.0 }
    {
        item_or(&self.mutexes, m.0, MutexState::Free)
    }

    pub fn set_mutex(&mut self, m: Mutex, to: MutexState)
        ensures { self.new ≡ mark self.old m.0 to }
    {
        set_item(&mut self.mutexes, m.0, to);
    }
}
