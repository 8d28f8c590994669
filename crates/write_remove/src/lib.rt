// Remove (from write_remove.rs).
#![tactic(auto)]

pub mod remove;
