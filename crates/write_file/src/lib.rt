// New file and write (from write_file.rs).
#![tactic(auto)]

pub mod new_file;
pub mod write;
