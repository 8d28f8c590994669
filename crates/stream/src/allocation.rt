// The record of a stream's clusters.
ghost use Rattle.std.specs.Prelude.{◌≡◌};
ghost use Rattle.stream.specs.Stream.{empty};

// Where a stream starts and ends, how many clusters it has, and whether they are consecutive with no links in the FAT.
// With count 0 it is empty, whatever the rest.
#[derive(Clone, Copy)]
pub struct Allocation {
    pub first: u32,
    pub last: u32,
    pub count: u32,
    pub no_fat_chain: bool,
}

// A newly made empty record.
// Kept: its clusters are 0, as the standard has an empty stream's first one.
pub fn empty_record() -> Allocation
    ensures { result ≡ empty }
{
    Allocation {
        first: 0,
        last: 0,
        count: 0,
        no_fat_chain: false,
    }
}
