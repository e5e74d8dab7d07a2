// The two machines agree: see specs/Agreement.antt.
#![tactic(auto)]

pub mod theorem;
