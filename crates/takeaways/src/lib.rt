// What the program takeaway answers.
#![tactic(auto)]

pub mod reply;
