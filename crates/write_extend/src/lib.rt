// How a stream grows (from write_alloc.rs).
#![tactic(auto)]

pub mod extend;
