// The ones of a bitmap's first bits.
use primitives::count::bitmap_count;

// At and around the ends of the first bytes.
const LOW: &[u32] = &[0, 1, 2, 7, 8, 9, 15, 16, 17, 23, 24];

// Past them, up to the largest heap's bitmap.
const HIGH: &[u32] = &[25, 4095, 4096, 4097, 32760, 32761, 32767, 32768];

// One line for each length: the bitmap's name, how many bits are valid, and how many of them are set.
fn counts(to: &impl Print, name: &str, bitmap: &[u8], lengths: &[u32]) {
    for &n in lengths {
        if n <= 32768 && (n as usize + 7) / 8 <= bitmap.len() {
            let ones = bitmap_count(bitmap, n);
            let _ = println!(to; "count {name} {n} {ones}");
        }
    }
}

pub fn all(to: &impl Print) {
    for (name, bitmap) in [
        ("ones", b"\xFF\xFF\xFF"),
        ("zeros", b"\x00\x00\x00"),
        ("mixed", b"\x1F\x80\xA5"),
        ("past", b"\x00\xFE\xFF"),
    ] {
        counts(to, name, bitmap, LOW);
    }
    let full = [0xFFu8; 4096];
    counts(to, "full", &full, LOW);
    counts(to, "full", &full, HIGH);
    counts(to, "half", &[0x55u8; 4096], HIGH);
    let mut ends = [0u8; 4096];
    ends[0] = 0x81;
    ends[3] = 0xFF;
    ends[4094] = 0x80;
    ends[4095] = 0x81;
    counts(to, "ends", &ends, LOW);
    counts(to, "ends", &ends, HIGH);
}
