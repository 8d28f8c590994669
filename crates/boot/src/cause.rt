// What refuses a call, and the number that 01 gives it.
ghost use Rattle.std.specs.Prelude.{◌≡◌};
ghost use Rattle.boot.specs.Causes.{cause_number, number};

// Why a call is refused (01, "What a call answers"; Rust: `Error`).
#[derive(Clone, Copy, Debug, PartialEq, Eq)]
pub enum Cause {
    // Geometry or a slice length breaks the limits.
    Limits = 1,
    // A hint, a near or a root cluster, or a record's cluster, outside 2..C+1.
    OutsideHeap = 2,
    // A chain meets a FAT value that is neither in the heap nor the end.
    NoCluster = 3,
    // C clusters are collected, and another in the heap follows.
    Endless = 4,
    // A record's count or last differs from its chain.
    OtherChain = 5,
    // A stream's cluster is not marked in the bitmap.
    Unmarked = 6,
    // Too few clusters.
    NoSpace = 7,
    // Offset plus data length above 2^64 - 1.
    PastEnd = 8,
    // A system cluster among a file's or among freed ones, or a bitmap cluster in the root.
    SystemCluster = 9,
    // No sound file entry at the slot.
    NoFile = 10,
    // The entry is a directory.
    IsDirectory = 11,
    // The name is refused.
    BadName = 12,
    // An attribute outside 0x27.
    BadAttributes = 13,
    // The list is shorter than the stream's count.
    ShortList = 14,
    // The lent zeros are none, or hold another byte.
    BadZeros = 15,
}

impl Cause {
    // Its number.
    pub fn number(self) -> u32
        ensures { result ≡ cause_number self }
    {
        self as u32
    }
}

// The number of a call by what its function gives: 0 where it is carried out, else its cause's.
pub fn number<T>(r: &Result<T, Cause>) -> u32
    ensures { result ≡ number r.now }
{
    match r {
        Ok(_) => 0,
        Err(cause) => cause.number(),
    }
}
