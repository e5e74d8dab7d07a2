// What the programs share that take a file: its kind, why there is nothing to tell, and three counts as bytes.
#![tactic(auto)]

pub mod known;
pub mod numbers;
pub mod problem;
pub mod told;
