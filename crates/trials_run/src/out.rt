// Lines on standard output. No contract can say what is written: the lines are compared with the file stdout.
use primitives::words::{u32_at, u64_at};

// The bytes of a volume: 48 sectors of 512 bytes, the FAT at sector 24, the heap at sector 32.
pub type Volume = [u8; 24576];

// A line of bytes.
pub fn bytes(to: &impl Print, name: &str, part: &[u8]) {
    let _ = print!(to; "{name}");
    for b in part {
        let _ = print!(to; " {b:02x}");
    }
    let _ = println!(to);
}

// The line of the 18 FAT entries.
pub fn fat(to: &impl Print, vol: &Volume) {
    let _ = print!(to; "  fat");
    for k in 0..18 {
        let entry = u32_at(vol, 12288 + 4 * k);
        let _ = print!(to; " {entry:08x}");
    }
    let _ = println!(to);
}

// The line of a checksum over the whole volume, by words of eight bytes, so that the interpreter's steps are enough for every trial. Turned
// by one bit and folded, so that bytes stored some clusters away from their place show.
pub fn sum(to: &impl Print, vol: &Volume) {
    let mut n: u64 = 0;
    for k in 0..3072 {
        n = n.rotate_left(1) ^ (n >> 57) ^ u64_at(vol, 8 * k);
    }
    let _ = println!(to; "  sum {n:016x}");
}

// The line of a listing: number, and the whole list.
pub fn list(to: &impl Print, number: u32, list: &[u32]) {
    let _ = print!(to; "  list {number}");
    for k in list {
        let _ = print!(to; " {k}");
    }
    let _ = println!(to);
}
