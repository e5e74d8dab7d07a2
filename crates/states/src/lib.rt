// The state of a run: shared cells, mutexes, and the table of thread entries.
#![tactic(auto)]

pub mod entries;
pub mod state;
