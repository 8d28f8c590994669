// The checksum of an entry set (Rust: `entry_set_checksum`).
ghost use Rattle.std.specs.Prelude.{◌≡◌, ◌≤◌, length, fold};
ghost use Rattle.primitives.specs.Checksum.{rotate_right, add_byte, checksum};

// x rotated right by one bit.
fn rotate_right_1(x: u16) -> u16
    ensures { result ≡ rotate_right x }
{
    x.rotate_right(1)
}

// The sum after one more byte.
fn checksum_step(sum: u16, b: u8) -> u16
    ensures { result ≡ add_byte sum b }
{
    rotate_right_1(sum).wrapping_add(u16::from(b))
}

// The sum after each of the bytes.
fn add_bytes(bytes: &[u8], start: u16) -> u16
    ensures { result ≡ fold add_byte start bytes.now }
{
    bytes.iter().fold(start, |sum, b| checksum_step(sum, *b))
}

// The checksum of a whole set. Bytes 2 and 3 hold the checksum itself and are left out.
pub fn entry_set_checksum(set: &[u8]) -> u16
    ensures { result ≡ checksum set.now (length set.now) }
{
    let n = set.len();
    let start = add_bytes(&set[..n.min(2)], 0);
    add_bytes(&set[n.min(4)..], start)
}

// The checksum of the first n bytes of a set that is held in an array.
// Kept: callers count a set's entries, and this is where the array is cut, once for all of them.
pub fn array_checksum(set: &[u8; 608], n: usize) -> u16
    requires { n ≤ 608 }
    ensures { result ≡ checksum set.now n }
{
    entry_set_checksum(&set[..n])
}
