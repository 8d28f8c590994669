// Entry sets: a file entry, its stream extension and its names (from directory.rs and write_dir.rs), held in 608 bytes.
#![tactic(auto)]

pub mod entry;
pub mod name;
pub mod set;
pub mod stamp;
