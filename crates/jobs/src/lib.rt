// A job: one program, its two machines, and how far the walk over each has come.
#![tactic(auto)]

pub mod job;
pub mod session;
