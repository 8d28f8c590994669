// The free count of small volumes: sectors and clusters of 512 bytes, the heap at sector 32, bitmaps in clusters 2 and 3.
use crate::out;
use boot::cause::number;
use boot::geometry::geometry_of;
use metadata::free::free_clusters;

// One line: what is tried, the geometry, the volume's length, the number and the count. The volume has FATs fats, of which the one
// numbered active is active, and count clusters.
fn line(to: &impl Print, name: &str, vol: &[u8], map: &[u8], fats: u32, active: u32, count: u32) {
    let w = [9, 0, 24, 1, fats, active, 32, count, 3, 2, 3];
    let _ = print!(to; "free {name}");
    out::numbers(to, &w);
    let r = free_clusters(vol, map, geometry_of(&w));
    let _ = println!(to; " {} {} {}", vol.len(), number(&r), r.unwrap_or(0));
}

// The volume that has the first two bytes of the first bitmap and of the second one.
fn free(
    to: &impl Print,
    name: &str,
    first: [u8; 2],
    second: [u8; 2],
    map: &[u8],
    fats: u32,
    active: u32,
    count: u32,
) {
    let mut vol = [0u8; 24576];
    vol[16384] = first[0];
    vol[16385] = first[1];
    vol[16896] = second[0];
    vol[16897] = second[1];
    line(to, name, &vol, map, fats, active, count);
}

// The volume of the trials, one byte short.
fn short(to: &impl Print) {
    let mut vol = [0u8; 24575];
    vol[16384] = 0x1F;
    line(to, "short-volume", &vol, b"\x03\x00", 1, 0, 16);
}

// One FAT, so that the first bitmap is the active one.
fn one_fat(to: &impl Print) {
    let rows: [(&str, [u8; 2], [u8; 2], &[u8], u32); 10] = [
        ("empty", [0x00, 0x00], [0xFF, 0xFF], b"\x03\x00", 16),
        ("trial", [0x1F, 0x00], [0xFF, 0xFF], b"\x03\x00", 16),
        ("full", [0xFF, 0xFF], [0x00, 0x00], b"\x03\x00", 16),
        ("mixed", [0xA5, 0x81], [0x00, 0x00], b"\x03\x00", 16),
        ("past-13", [0x03, 0xE0], [0x00, 0x00], b"\x03\x00", 13),
        ("full-13", [0xFF, 0xFF], [0x00, 0x00], b"\x03\x00", 13),
        ("last-13", [0x00, 0xF0], [0x00, 0x00], b"\x03\x00", 13),
        ("past-1", [0xFE, 0xFF], [0x00, 0x00], b"\x01", 1),
        ("one-1", [0x01, 0x00], [0x00, 0x00], b"\x01", 1),
        ("eight", [0x0F, 0xFF], [0x00, 0x00], b"\x03", 8),
    ];
    for (name, first, second, map, count) in rows {
        free(to, name, first, second, map, 1, 0, count);
    }
}

// Two FATs, of which either is active.
fn two_fats(to: &impl Print) {
    for (name, first, second, active) in [
        ("first-active", [0x1F, 0x00], [0xFF, 0xFF], 0),
        ("second-active", [0x1F, 0x00], [0xFF, 0xFF], 1),
        ("second-active-other", [0xFF, 0xFF], [0x03, 0x80], 1),
    ] {
        free(to, name, first, second, b"\x03\x00", 2, active, 16);
    }
}

// Short volumes and maps, a bitmap that the map lacks, and an active FAT past the last one.
fn refused(to: &impl Print) {
    short(to);
    let rows: [(&str, &[u8], u32); 3] = [
        ("short-map", b"\x03", 0),
        ("bitmap-not-in-map", b"\x02\x00", 0),
        ("active-past", b"\x03\x00", 1),
    ];
    for (name, map, active) in rows {
        free(to, name, [0x1F, 0x00], [0xFF, 0xFF], map, 1, active, 16);
    }
}

pub fn all(to: &impl Print) {
    one_fat(to);
    two_fats(to);
    refused(to);
}
