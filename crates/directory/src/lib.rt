// A directory as a stream of 32-byte entries, as it is read: the root, its sets, a file opened by its slot, and where a new set goes
// (from directory.rs, write_dir.rs and write_file.rs).
#![tactic(auto)]

pub mod directory;
pub mod entries;
pub mod open_file;
pub mod spot;
#[cfg(test)]
mod tests;
