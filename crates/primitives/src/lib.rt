// Bytes and numbers: what the format is made of, before there is a volume (from primitives.rs).
#![tactic(auto)]

pub mod bits;
pub mod checksum;
pub mod count;
pub mod slices;
pub mod words;
