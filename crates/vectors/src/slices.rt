// Runs of bytes copied into a slice, and filled with zeros.
use crate::out;
use primitives::slices::{copy_in, fill_zero};

// One line for each copy: the place, where the bytes come from, how many, and 16 bytes of 0xEE after the copy.
fn copies(to: &impl Print) {
    let src = [0u8, 1, 2, 3, 4, 5, 6, 7, 8, 9, 10, 11];
    for (at, from, n) in [
        (0, 0, 0),
        (0, 0, 1),
        (0, 0, 12),
        (4, 0, 12),
        (3, 5, 7),
        (15, 11, 1),
        (16, 12, 0),
    ] {
        let mut dst = [0xEEu8; 16];
        if n <= 12 && from <= 12 - n && at <= 16 - n {
            copy_in(&mut dst, at, &src[from..from + n]);
        }
        let _ = print!(to; "copy {at} {from} {n} ");
        out::bytes(to, &dst);
    }
}

// One line for each run of zeros: the place, how many, and 16 bytes of 0xEE after them.
fn fills(to: &impl Print) {
    for (at, n) in [(0, 0), (0, 1), (0, 16), (5, 6), (15, 1), (16, 0)] {
        let mut dst = [0xEEu8; 16];
        if n <= 16 && at <= 16 - n {
            fill_zero(&mut dst, at, n);
        }
        let _ = print!(to; "fill {at} {n} ");
        out::bytes(to, &dst);
    }
}

pub fn all(to: &impl Print) {
    copies(to);
    fills(to);
}
