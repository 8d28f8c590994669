// One bit of a byte: tested, set, cleared and put.
use primitives::bits::{bit_clear, bit_put, bit_set, bit_test};

// One line for each bit of each byte: the byte, the bit, then test, set, clear, put 0 and put 1.
pub fn all(to: &impl Print) {
    for b in [0x00, 0xFF, 0xA5, 0x5A, 0x01, 0x80, 0x7F, 0xFE] {
        for j in 0..8 {
            let test = u8::from(bit_test(b, j));
            let set = bit_set(b, j);
            let clear = bit_clear(b, j);
            let put_0 = bit_put(b, j, false);
            let put_1 = bit_put(b, j, true);
            let _ = println!(to; "bit {b} {j} {test} {set} {clear} {put_0} {put_1}");
        }
    }
}
