// How a new stream is allocated (from write_alloc.rs).
#![tactic(auto)]

pub mod allocate;
pub mod answer;
pub mod take;
