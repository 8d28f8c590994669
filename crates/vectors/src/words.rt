// Words of 2, 4 and 8 bytes, low byte first.
use crate::out;
use primitives::words::{put_u16, put_u32, put_u64, u16_at, u32_at, u64_at};

// One line for each place: the place, and the word of 2 bytes there, then of 4, then of 8.
fn reads(to: &impl Print) {
    let s = b"\x00\x01\x7F\x80\xFE\xFF\xFF\xFF\xF7\xFF\xFF\xFF\x12\x34\x56\x78";
    for at in 0..9 {
        let two = u16_at(s, at);
        let four = u32_at(s, at);
        let eight = u64_at(s, at);
        let _ = println!(to; "read {at} {two:04x} {four:08x} {eight:016x}");
    }
}

// One line for each word: its width, the place, the word, and 12 bytes of 0xEE with the word stored in them.
fn stores(to: &impl Print) {
    for (width, at, v) in [
        (2, 0, 0x1234),
        (2, 1, 0xFFFF),
        (2, 9, 0x00FF),
        (2, 10, 0xFF00),
        (4, 0, 0x12345678),
        (4, 3, 0xFFFFFFF7),
        (4, 8, 0xFFFFFFFF),
        (8, 0, 0x123456789ABCDEF0),
        (8, 1, 0xFFFFFFFFFFFFFFFF),
        (8, 4, 0x00000000FFFFFFF7u64),
    ] {
        let mut s = [0xEEu8; 12];
        // Kept: each width has its own function of the library.
        let digits = match width {
            2 if at <= 10 => {
                put_u16(&mut s, at, v as u16);
                4
            }
            4 if at <= 8 => {
                put_u32(&mut s, at, v as u32);
                8
            }
            8 if at <= 4 => {
                put_u64(&mut s, at, v);
                16
            }
            _ => 0,
        };
        let _ = print!(to; "store {width} {at} {v:0digits$x} ");
        out::bytes(to, &s);
    }
}

pub fn all(to: &impl Print) {
    reads(to);
    stores(to);
}
