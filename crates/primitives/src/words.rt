// Words of 2, 4 and 8 bytes in a slice, low byte first (Rust: `u16_at`, `u32_at`, `u64_at`).
ghost use Rattle.std.specs.Prelude.{◌≡◌, ◌+◌, ◌<◌, ◌≤◌, length, take, drop};
ghost use Rattle.primitives.specs.Words.{get_le, put_le};

// The N bytes from `at`.
fn bytes_at<const N: usize>(s: &[u8], at: usize) -> [u8; N]
    requires { at + N ≤ length s.now }
    ensures { result ≡ take N (drop at s.now) }
{
    let mut bytes = [0; N];
    bytes.copy_from_slice(&s[at..at + N]);
    bytes
}

// Kept: one function for each width, as in the Rust; each is a line over the library, and a trait needs the same line in each impl.
pub fn u16_at(s: &[u8], at: usize) -> u16
    requires { at + 2 ≤ length s.now }
    ensures { result ≡ get_le 2 s.now at }
{
    u16::from_le_bytes(bytes_at(s, at))
}

pub fn u32_at(s: &[u8], at: usize) -> u32
    requires { at + 4 ≤ length s.now }
    ensures { result ≡ get_le 4 s.now at }
{
    u32::from_le_bytes(bytes_at(s, at))
}

pub fn u64_at(s: &[u8], at: usize) -> u64
    requires { at + 8 ≤ length s.now }
    ensures { result ≡ get_le 8 s.now at }
{
    u64::from_le_bytes(bytes_at(s, at))
}

pub fn put_u16(s: &mut [u8], at: usize, v: u16)
    requires { at + 2 ≤ length s.old }
    ensures { s.new ≡ put_le 2 s.old at v }
{
    s[at..at + 2].copy_from_slice(&v.to_le_bytes());
}

pub fn put_u32(s: &mut [u8], at: usize, v: u32)
    requires { at + 4 ≤ length s.old }
    ensures { s.new ≡ put_le 4 s.old at v }
{
    s[at..at + 4].copy_from_slice(&v.to_le_bytes());
}

pub fn put_u64(s: &mut [u8], at: usize, v: u64)
    requires { at + 8 ≤ length s.old }
    ensures { s.new ≡ put_le 8 s.old at v }
{
    s[at..at + 8].copy_from_slice(&v.to_le_bytes());
}
