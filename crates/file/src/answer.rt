// What new file, write, set length and remove give where they are carried out.

// The slot of a new set (0 for a call that makes none), and the new hint.
// Kept: the claim over lists speaks of one record for the four calls, whose slot is 0 where no set is made.
#[derive(Clone, Copy)]
pub struct Carried {
    pub slot: u32,
    pub hint: u32,
}
