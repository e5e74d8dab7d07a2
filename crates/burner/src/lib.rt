// For the burner's C host: a file is checked by one call, on numbers and bytes.
#![tactic(auto)]

pub mod quick;
