// The questions that a program file is asked before it is believed.
#![tactic(auto)]

pub mod ask;
pub mod context;
pub mod past;
pub mod question;
