// Reading a file back (02, 2027-01): a file "a" on the chain 4, 5, 9, length 1,400, valid length 1,100, its set at slot 0 of the root.
use crate::out::Volume;
use crate::trial::{END, MAP, volume};
use boot::cause::number;
use primitives::slices::copy_in;
use primitives::words::put_u32;
use read_file::read::{read_number, read_part};

// One read: its number, and its part: of the volume or of the zeros, its first byte there, its length.
fn read(to: &impl Print, name: &str, vol: &Volume, zeros: &[u8], slot: u32, offset: u64) {
    let n = number(&read_number(vol, MAP, volume(), zeros, slot));
    let p = read_part(vol, MAP, volume(), zeros, slot, offset);
    let of = if p.zeros { "zeros" } else { "volume" };
    let _ = println!(to; "{name}\n  read {n} {of} {} {}", p.start, p.len);
}

pub fn all(to: &impl Print) {
    let set =
        b"\x85\x02\xE2\xC2\x01\x00\x00\x00\x00\x00\x21\x5A\x00\x00\x21\x5A\x00\x00\x21\x5A\x0A\x0A\x84\x84\x84\x00\x00\x00\x00\x00\x00\x00\xC0\x01\x00\x01\x34\x12\x00\x00\x4C\x04\x00\x00\x00\x00\x00\x00\x00\x00\x00\x00\x04\x00\x00\x00\x78\x05\x00\x00\x00\x00\x00\x00\xC1\x00a";
    let mut vol = [0u8; 24576];
    vol[16384] = 0x8F;
    for (k, entry) in [END, 5, 9, 0, 0, 0, END].iter().enumerate() {
        put_u32(&mut vol, 12300 + 4 * k, *entry);
    }
    copy_in(&mut vol, 16896, set);
    let zeros = [0u8; 100];
    let mut spoiled = [0u8; 100];
    spoiled[99] = 1;
    let rows: [(&str, &[u8], u32, u64); 9] = [
        // to the end of cluster 5, cluster 9 up to valid, all zeros lent, zeros up to the length, and nothing behind it
        ("R1", &zeros, 0, 100),
        ("R2", &zeros, 0, 1024),
        ("R3", &zeros, 0, 1100),
        ("R4", &zeros, 0, 1350),
        ("R5", &zeros, 0, 1400),
        ("R6", &zeros, 0, 0xFFFF_FFFF_FFFF_FFFF),
        // no zeros, another byte among them, a slot without a file
        ("R7", b"", 0, 100),
        ("R8", &spoiled, 0, 100),
        ("R9", &zeros, 1, 100),
    ];
    for (name, zeros, slot, offset) in rows {
        read(to, name, &vol, zeros, slot, offset);
    }
}
