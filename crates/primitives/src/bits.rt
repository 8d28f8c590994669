// Bits of a byte, by a mask of one bit, and bits of a bitmap that are skipped by the byte. Bit 0 is the lowest.
ghost use Rattle.std.specs.Prelude.{◌≡◌, ◌+◌, ◌*◌, ◌/◌, ◌<◌, ◌≤◌, not, ◌&&◌, length, ◌==◌};
ghost use Rattle.search.specs.Search.{all_from, fewest};
ghost use Rattle.primitives.specs.Bits.{bit_of, set_bit, clear_bit, put_bit};
ghost use Rattle.primitives.specs.Internal.{byte_is, bit_is};

// Whether bit j of b is set.
pub fn bit_test(b: u8, j: u8) -> bool
    requires { j < 8 }
    ensures { result ≡ (bit_of b j == 1) }
{
    b & (1 << j) != 0
}

// b with bit j set.
pub fn bit_set(b: u8, j: u8) -> u8
    requires { j < 8 }
    ensures { result ≡ set_bit b j }
{
    b | (1 << j)
}

// b with bit j clear.
pub fn bit_clear(b: u8, j: u8) -> u8
    requires { j < 8 }
    ensures { result ≡ clear_bit b j }
{
    b & !(1 << j)
}

// b with bit j set or clear.
pub fn bit_put(b: u8, j: u8, on: bool) -> u8
    requires { j < 8 }
    ensures { result ≡ put_bit b j on }
{
    if on { bit_set(b, j) } else { bit_clear(b, j) }
}

// Whether the 64 bytes from i are all b. With no way out before the end, the compiler compares 16 bytes at a time.
fn same_block(bitmap: &[u8], i: usize, b: u8) -> bool
    requires { i + 64 ≤ length bitmap.now }
    ensures { result ≡ all_from (byte_is bitmap.now b) i 64 }
{
    bitmap[i..i + 64]
        .iter()
        .fold(true, |same, x| same & (*x == b))
}

// The first of the n bit numbers from k whose byte is not b; k + n where there is none. One test for each byte.
// Kept: k + n, here and below, since who asks goes on from there.
fn past_each_byte(bitmap: &[u8], b: u8, k: u32, n: u32) -> u32
    requires { (k + n ≤ 65536) × (k + n ≤ 8 * length bitmap.now) }
    ensures { result ≡ fewest (λ j. not (byte_is bitmap.now b (j / 8))) n k }
{
    let end = k + n;
    let mut at = k;
    // Kept: it begins inside a byte; a loop over bytes would give back the greater of k and a byte's first bit.
    while at < end {
        let i = (at / 8) as usize;
        if bitmap[i] != b {
            return at;
        }
        at = 8 * (at / 8) + 8;
    }
    end
}

// The same, with one test for each block of 64 bytes as long as they are all b.
fn past_bytes(bitmap: &[u8], b: u8, k: u32, n: u32) -> u32
    requires { (k + n ≤ 65536) × (k + n ≤ 8 * length bitmap.now) }
    ensures { (result ≡ fewest (λ j. not (byte_is bitmap.now b (j / 8))) n k) × ((k ≤ result) × (result ≤ k + n)) }
{
    let end = k + n;
    let mut at = k;
    // Kept: the same by 64 bytes, and what is left goes on from where it stops.
    while 520 <= end - at && same_block(bitmap, (at / 8) as usize, b) {
        at = 8 * (at / 8) + 512;
    }
    past_each_byte(bitmap, b, at, end - at)
}

// The first of the n bits from k that is v; k + n where there is none. Bytes with no such bit are passed at once.
pub fn first_bit(bitmap: &[u8], v: u8, k: u32, n: u32) -> u32
    requires { (v < 2) × ((k + n ≤ 65536) × (k + n ≤ 8 * length bitmap.now)) }
    ensures { (result ≡ fewest (bit_is bitmap.now v) n k) × ((k ≤ result) × (result ≤ k + n)) }
{
    let end = k + n;
    let mut at = k;
    // Kept: a step is one bit, or as far as the bytes have no such bit.
    while at < end {
        let b = bitmap[(at / 8) as usize];
        let next = at + 1;
        if (b >> ((at % 8) as u8)) % 2 == v {
            return at;
        }
        if next % 8 != 0 {
            at = next;
        } else if v == 0 {
            at = past_bytes(bitmap, 0xFF, next, end - next);
        } else {
            at = past_bytes(bitmap, 0, next, end - next);
        }
    }
    end
}

// Whether none of the n bits from k is set.
pub fn none_set(bitmap: &[u8], k: u32, n: u32) -> bool
    requires { (k + n ≤ 65536) × (k + n ≤ 8 * length bitmap.now) }
    ensures { result ≡ all_from (λ j. not (bit_is bitmap.now 1 j)) k n }
{
    first_bit(bitmap, 1, k, n) == k + n
}
