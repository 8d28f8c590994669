// A time as an entry holds it, given by the caller.
ghost use Rattle.std.specs.Prelude.{◌≡◌, ◌+◌, ◌≤◌, length};
ghost use Rattle.entry_set.specs.Stamps.{stamp_at, stamps_at};

// One stamp: 4 bytes, an increment byte and an offset byte.
#[derive(Clone, Copy)]
pub struct Stamp {
    pub value: u32,
    pub increment: u8,
    pub offset: u8,
}

// The three stamps of a new file.
#[derive(Clone, Copy)]
pub struct Stamps {
    pub created: Stamp,
    pub modified: Stamp,
    pub accessed: Stamp,
}

// The stamp whose 6 bytes stand from byte `at` on: the value low byte first, the increment, the offset.
// Kept: a new file's three stamps stand one behind the other, and a row of the sample holds more; From of six bytes would have each cut out.
pub fn stamp_at(bytes: &[u8], at: usize) -> Stamp
    requires { at + 6 ≤ length bytes.now }
    ensures { result ≡ stamp_at bytes.now at }
{
    Stamp {
        value: primitives::words::u32_at(bytes, at),
        increment: bytes[at + 4],
        offset: bytes[at + 5],
    }
}

// The three stamps whose bytes stand from byte `at` on.
pub fn stamps_at(bytes: &[u8], at: usize) -> Stamps
    requires { at + 18 ≤ length bytes.now }
    ensures { result ≡ stamps_at bytes.now at }
{
    Stamps {
        created: stamp_at(bytes, at),
        modified: stamp_at(bytes, at + 6),
        accessed: stamp_at(bytes, at + 12),
    }
}
