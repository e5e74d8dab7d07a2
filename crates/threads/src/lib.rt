// The thread machine: threads that take turns over shared cells and mutexes.
#![tactic(auto)]

pub mod effect;
pub mod machine;
pub mod play;
pub mod point;
pub mod runner;
pub mod slot;
pub mod step;
pub mod turn;
