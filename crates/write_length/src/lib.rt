// Set length (from write_file.rs).
#![tactic(auto)]

pub mod set_length;
