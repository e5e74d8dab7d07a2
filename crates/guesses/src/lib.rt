// The sequential program as something to walk.
#![tactic(auto)]

pub mod machine;
pub mod runner;
