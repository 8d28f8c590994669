// The ones of a bitmap, counted by the byte (Rust: `bitmap_count`).
ghost use Rattle.std.specs.Prelude.{◌≡◌, ◌*◌, ◌≤◌, length};
ghost use Rattle.primitives.specs.Bits.{count_bits};

// How many of the first `count` bits are set. The last byte is cut to its valid bits.
pub fn bitmap_count(bitmap: &[u8], count: u32) -> u32
    requires { (count ≤ 32768) × (count ≤ 8 * length bitmap.now) }
    ensures { result ≡ count_bits bitmap.now count }
{
    let whole = (count / 8) as usize;
    let rest = count % 8;
    let mut sum: u32 = bitmap[..whole].iter().map(|b| b.count_ones()).sum();
    if rest != 0 {
        sum += (bitmap[whole] & ((1 << rest) - 1)).count_ones();
    }
    sum
}
