// Checksums of file entry sets of 3, 4 and 19 entries. The sets are read from standard input, 608 bytes each, with zeros after the set.
use crate::out;
use primitives::checksum::{array_checksum, entry_set_checksum};
use primitives::words::u16_at;
use std::io::Read;

// One line: the checksum of the first n bytes, of a slice and of the array.
fn sum(to: &impl Print, name: &str, set: &[u8; 608], n: usize) {
    if n <= 608 {
        let of_slice = entry_set_checksum(&set[..n]);
        let of_array = array_checksum(set, n);
        let _ = println!(to; "checksum {name} {n} {of_slice:04x} {of_array:04x}");
    }
}

// The lines of a set of n entries: the 32 bytes of each, the checksum, and the one that the set stores.
fn whole(rt: &HostRuntime, name: &str, n: u8) {
    let mut set = [0u8; 608];
    let _ = rt.stdin().read_exact(&mut set);
    let n = usize::from(n);
    for (i, entry) in set.chunks_exact(32).take(n).enumerate() {
        let _ = print!(rt; "entry {name} {i} ");
        out::bytes(rt, entry);
    }
    sum(rt, name, &set, 32 * n);
    let stored = u16_at(&set, 2);
    let _ = println!(rt; "stored {name} {stored:04x}");
}

// The first bytes of a set, with those that hold the checksum left out, and the whole set with these and then another one changed.
fn changed(rt: &HostRuntime) {
    let mut set = [0u8; 608];
    let _ = rt.stdin().read_exact(&mut set);
    for n in [0, 1, 2, 3, 4, 5, 32, 607] {
        sum(rt, "long", &set, n);
    }
    set[2] = 0xFF;
    set[3] = 0x01;
    sum(rt, "changed-2-3", &set, 608);
    set[1] = 0x11;
    sum(rt, "changed-1", &set, 608);
}

pub fn all(rt: &HostRuntime) {
    for (name, n) in [("short", 3), ("two", 4), ("long", 19)] {
        whole(rt, name, n);
    }
    changed(rt);
}
