// The sequential program of a table: its instructions, the translation, and the machine that runs it.
#![tactic(auto)]

pub mod act;
pub mod drive;
pub mod guesses;
pub mod instruction;
mod labels;
pub mod point;
pub mod section;
pub mod sequence;
pub mod state;
pub mod translate;
mod writes;
