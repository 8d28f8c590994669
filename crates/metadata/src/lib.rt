// FAT entries and the allocation bitmap, read and stored, and what they say of a cluster (from metadata.rs, and the stores of write_alloc.rs).
#![tactic(auto)]

pub mod bitmap;
pub mod fat;
pub mod free;
pub mod usable;
