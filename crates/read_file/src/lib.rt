// Reading a file back without copying it (02, 2027-01).
#![tactic(auto)]

pub mod part;
pub mod read;
