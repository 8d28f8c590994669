// How a stream is cut and its other clusters freed (from write_alloc.rs).
#![tactic(auto)]

pub mod shrink;
