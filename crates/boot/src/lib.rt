// The geometry of a volume: its limits, and the places in bytes that follow from it (from boot.rs).
#![tactic(auto)]

pub mod cause;
pub mod geometry;
pub mod layout;
pub mod system;
