// What a run over a list of numbers reports, what a call of a walk answers, and the questions before both.
#![tactic(auto)]

pub mod player;
pub mod report;
pub mod stop;
pub mod walking;
