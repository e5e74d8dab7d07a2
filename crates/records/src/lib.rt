// The records of a program file, and what each says.
#![tactic(auto)]

pub mod body;
pub mod display;
pub mod lookup;
pub mod reader;
pub mod refusal;
pub mod reserved;
pub mod row;
pub mod statement;
