// A set stored, and a directory that grows (from write_dir.rs).
#![tactic(auto)]

pub mod place;
