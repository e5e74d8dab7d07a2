// A walk over the leaves of a tree of runs: no leaf is visited twice, none is passed over, and no run starts anew.
#![tactic(auto)]

pub mod counts;
mod cursor;
pub mod found;
pub mod outcome;
pub mod runner;
mod tally;
pub mod walk;
