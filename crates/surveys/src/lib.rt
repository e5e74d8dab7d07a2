// Survey from file to totals: a machine on a file, and a walk over all its schedules.
#![tactic(auto)]

pub mod host;
pub mod setup;
pub mod totals;
