// Which clusters are taken (from write_alloc.rs).
#![tactic(auto)]

pub mod choice;
