// A stream: an allocation record read as a list of clusters, and the bytes of those clusters.
#![tactic(auto)]

pub mod allocation;
pub mod bytes;
pub mod list;
pub mod pieces;
pub mod system;
pub mod walk;
