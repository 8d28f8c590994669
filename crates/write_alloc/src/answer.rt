// What allocate, extend and shrink give where they are carried out.
use stream::allocation::Allocation;

// The record and the new hint.
#[derive(Clone, Copy)]
pub struct Updated {
    pub allocation: Allocation,
    pub hint: u32,
}
