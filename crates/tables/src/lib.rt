// The table of a program, and the file that it is loaded from and saved to.
#![tactic(auto)]

pub mod table;
pub mod text;
