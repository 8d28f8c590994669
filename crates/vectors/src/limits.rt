// Geometries at each limit and one past it: sectors and clusters of 512 bytes where nothing else is said.
use crate::out;
use boot::geometry::{GEOMETRY_WORDS, geometry_of, validate};

// One line: what is tried, the geometry, the lengths of volume and map, and whether the limits hold.
fn line(to: &impl Print, name: &str, w: &[u32; GEOMETRY_WORDS], len: usize, map: &[u8]) {
    let _ = print!(to; "limits {name}");
    out::numbers(to, w);
    let holds = u8::from(validate(geometry_of(w), len, map));
    let _ = println!(to; " {len} {} {holds}", map.len());
}

// The shifts.
fn shifts(to: &impl Print) {
    for (name, s, c, fat, heap, len) in [
        ("trials", 9, 0, 1, 32, 24576),
        ("sector-8", 8, 0, 2, 32, 24576),
        ("sector-9", 9, 0, 2, 32, 24576),
        ("sector-12", 12, 0, 1, 32, 196608),
        ("sector-13", 13, 0, 1, 32, 393216),
        ("sector-0", 0, 0, 72, 96, 24576),
        ("sector-16", 16, 0, 1, 32, 16777216),
        ("sector-41", 41, 0, 1, 32, 24576),
        ("sector-high", 0xFFFFFFFF, 0, 1, 32, 24576),
        ("cluster-9-6", 9, 6, 1, 32, 540672),
        ("cluster-9-7", 9, 7, 1, 32, 1064960),
        ("cluster-12-3", 12, 3, 1, 32, 655360),
        ("cluster-12-4", 12, 4, 1, 32, 1179648),
        ("cluster-11-4", 11, 4, 1, 32, 589824),
        ("cluster-11-5", 11, 5, 1, 32, 1114112),
        ("cluster-32", 9, 32, 1, 32, 24576),
        ("cluster-wraps", 9, 0xFFFFFFF7, 1, 32, 24576),
        ("cluster-high", 9, 0xFFFFFFFF, 1, 32, 24576),
        ("both-high", 0xFFFFFFFF, 0xFFFFFFFF, 1, 32, 24576),
    ] {
        let w = [s, c, 24, fat, 1, 0, heap, 16, 3, 2, 0];
        line(to, name, &w, len, b"\x03\x00");
    }
}

// The FATs and the start of the heap.
fn fats(to: &impl Print) {
    for (name, at, length, fats, active, heap) in [
        ("offset-24", 24, 1, 1, 0, 32),
        ("offset-23", 23, 1, 1, 0, 32),
        ("offset-0", 0, 1, 1, 0, 32),
        ("offset-wraps", 0xFFFFFFFF, 1, 1, 0, 32),
        ("fats-0", 24, 1, 0, 0, 32),
        ("fats-1", 24, 1, 1, 0, 32),
        ("fats-2", 24, 1, 2, 0, 32),
        ("fats-3", 24, 1, 3, 0, 32),
        ("fats-high", 24, 1, 0xFFFFFFFF, 0, 32),
        ("active-1-of-1", 24, 1, 1, 1, 32),
        ("active-1-of-2", 24, 1, 2, 1, 32),
        ("active-2-of-2", 24, 1, 2, 2, 32),
        ("active-high", 24, 1, 1, 0xFFFFFFFF, 32),
        ("heap-24", 24, 1, 1, 0, 24),
        ("heap-25", 24, 1, 1, 0, 25),
        ("heap-25-of-2", 24, 1, 2, 0, 25),
        ("heap-26-of-2", 24, 1, 2, 0, 26),
        ("heap-moved", 30, 6, 1, 0, 36),
        ("heap-moved-short", 30, 7, 1, 0, 36),
        ("heap-moved-2", 26, 5, 2, 0, 36),
        ("heap-moved-2-short", 27, 5, 2, 0, 36),
        ("heap-wraps", 24, 1, 1, 0, 0x00800020),
        ("heap-high", 24, 1, 1, 0, 0xFFFFFFFF),
        ("fat-length-0", 24, 0, 1, 0, 32),
        ("fat-length-wraps", 24, 0x80000000, 2, 0, 32),
        ("fat-length-bytes-wrap", 24, 0x00800000, 1, 0, 32),
        ("fat-length-high", 24, 0xFFFFFFFF, 1, 0, 32),
        ("sum-high", 0xFFFFFFF0, 15, 1, 0, 0xFFFFFFFF),
    ] {
        let w = [9, 0, at, length, fats, active, heap, 16, 3, 2, 3];
        line(to, name, &w, 26624, b"\x03\x00");
    }
}

// The cluster count and the volume's length. The map has ceil(count / 8) bytes or all 4097, the first eight bits set.
fn counts(to: &impl Print) {
    let mut map = [0u8; 4097];
    map[0] = 0xFF;
    for (name, count, fat, heap, len) in [
        ("count-0", 0u32, 1, 32, 24576),
        ("count-1", 1, 1, 32, 16896),
        ("count-126", 126, 1, 32, 80896),
        ("count-127-fat-1", 127, 1, 32, 81408),
        ("count-127-fat-2", 127, 2, 32, 81408),
        ("count-254-fat-2", 254, 2, 32, 146432),
        ("count-255-fat-2", 255, 2, 32, 146944),
        ("count-most", 32490, 254, 278, 16777216),
        ("count-most-short", 32490, 254, 278, 16777215),
        ("count-most-fat", 32490, 253, 278, 16777216),
        ("count-most-heap", 32490, 254, 277, 16777216),
        ("count-and-one", 32491, 254, 278, 16777216),
        ("count-32768", 32768, 257, 281, 16777216),
        ("count-32768-held", 32768, 257, 281, 16921088),
        ("count-32769", 32769, 257, 281, 16921600),
        ("count-high", 0xFFFFFFFF, 257, 281, 16777216),
        ("length-exact", 16, 1, 32, 24576),
        ("length-short", 16, 1, 32, 24575),
        ("length-0", 16, 1, 32, 0),
        ("length-more", 16, 1, 32, 24577),
        ("length-most", 16, 1, 32, 16777216),
        ("length-past-most", 16, 1, 32, 16777217),
        ("length-32-bits", 16, 1, 32, 4294991872),
        ("length-high", 16, 1, 32, 18446744073709551615),
    ] {
        let bytes = count.div_ceil(8).min(4097) as usize;
        let w = [9, 0, 24, fat, 1, 0, heap, count, 3, 2, 0];
        line(to, name, &w, len, &map[..bytes]);
    }
}

// The system map and the bitmaps.
fn bitmaps(to: &impl Print) {
    let rows: [(&str, u32, u32, u32, u32, &[u8]); 37] = [
        ("map-0", 16, 1, 2, 0, b""),
        ("map-1", 16, 1, 2, 0, b"\x03"),
        ("map-2", 16, 1, 2, 0, b"\x03\x00"),
        ("map-3", 16, 1, 2, 0, b"\x03\x00\x00"),
        ("map-1-of-8", 8, 1, 2, 0, b"\x01"),
        ("map-2-of-8", 8, 1, 2, 0, b"\x01\x00"),
        ("map-1-of-9", 9, 1, 2, 0, b"\x01"),
        ("map-2-of-9", 9, 1, 2, 0, b"\x01\x00"),
        ("map-3-of-9", 9, 1, 2, 0, b"\x01\x00\x00"),
        ("map-2-of-15", 15, 1, 2, 0, b"\x01\x00"),
        ("map-2-of-17", 17, 1, 2, 0, b"\x01\x00"),
        ("map-3-of-17", 17, 1, 2, 0, b"\x01\x00\x00"),
        ("map-bits-past", 9, 1, 2, 0, b"\x01\xFE"),
        ("at-0", 16, 1, 0, 0, b"\xFF\xFF"),
        ("at-1", 16, 1, 1, 0, b"\xFF\xFF"),
        ("at-2", 16, 1, 2, 0, b"\xFF\xFF"),
        ("not-in-map", 16, 1, 2, 0, b"\xFE\xFF"),
        ("at-17", 16, 1, 17, 0, b"\x00\x80"),
        ("at-17-not-in-map", 16, 1, 17, 0, b"\xFF\x7F"),
        ("at-18", 16, 1, 18, 0, b"\xFF\xFF"),
        ("at-10-of-9", 9, 1, 10, 0, b"\xFF\xFF"),
        ("at-11-of-9", 9, 1, 11, 0, b"\xFF\xFF"),
        ("at-high", 16, 1, 0xFFFFFFFF, 0, b"\xFF\xFF"),
        ("both-2-3", 16, 2, 2, 3, b"\x03\x00"),
        ("both-3-2", 16, 2, 3, 2, b"\x03\x00"),
        ("both-2-2", 16, 2, 2, 2, b"\x03\x00"),
        ("both-2-4", 16, 2, 2, 4, b"\x03\x00"),
        ("both-2-17", 16, 2, 2, 17, b"\x01\x80"),
        ("both-2-18", 16, 2, 2, 18, b"\xFF\xFF"),
        ("both-2-1", 16, 2, 2, 1, b"\xFF\xFF"),
        ("both-2-0", 16, 2, 2, 0, b"\xFF\xFF"),
        ("both-2-high", 16, 2, 2, 0xFFFFFFFF, b"\xFF\xFF"),
        ("first-not-in-map", 16, 2, 2, 3, b"\x02\x00"),
        ("second-not-in-map", 16, 2, 2, 3, b"\x01\x00"),
        ("unused-high", 16, 1, 2, 0xFFFFFFFF, b"\x03\x00"),
        ("unused-same", 16, 1, 2, 2, b"\x03\x00"),
        ("unused-not-in-map", 16, 1, 2, 9, b"\x03\x00"),
    ];
    for (name, count, fats, a, b, map) in rows {
        let w = [9, 0, 24, 1, fats, 0, 32, count, 3, a, b];
        line(to, name, &w, 25088, map);
    }
}

// Bitmaps of two clusters, on a volume of 4,097.
fn wide(to: &impl Print, name: &str, fats: u32, a: u32, b: u32, map: &[u8; 513]) {
    let w = [9, 0, 24, 33, fats, 0, 90, 4097, 3, a, b];
    line(to, name, &w, 2143744, map);
}

// One bitmap of two clusters from a, with the map's first byte and its last two given and the others 0; two, with every bit of the map set.
fn two_clusters(to: &impl Print) {
    for (name, a, first, last) in [
        ("wide", 2, 0x03, [0x00, 0x00]),
        ("wide-first-missing", 2, 0x06, [0x00, 0x00]),
        ("wide-second-missing", 2, 0x05, [0x00, 0x00]),
        ("wide-at-end", 4097, 0x00, [0x80, 0x01]),
        ("wide-at-end-missing", 4097, 0x00, [0xC0, 0x00]),
    ] {
        let mut map = [0u8; 513];
        map[0] = first;
        map[511..].copy_from_slice(&last);
        wide(to, name, 1, a, 0, &map);
    }
    for (name, fats, a, b) in [
        ("wide-past-end", 1, 4098, 0),
        ("wide-2-4", 2, 2, 4),
        ("wide-4-2", 2, 4, 2),
        ("wide-2-3", 2, 2, 3),
        ("wide-3-2", 2, 3, 2),
        ("wide-2-4097", 2, 2, 4097),
        ("wide-2-4098", 2, 2, 4098),
    ] {
        wide(to, name, fats, a, b, &[0xFF; 513]);
    }
}

// The root cluster is no part of the limits.
fn roots(to: &impl Print) {
    for (name, root) in [("root-0", 0), ("root-high", 0xFFFFFFFF)] {
        let w = [9, 0, 24, 1, 1, 0, 32, 16, root, 2, 0];
        line(to, name, &w, 24576, b"\x03\x00");
    }
}

pub fn all(to: &impl Print) {
    shifts(to);
    fats(to);
    counts(to);
    bitmaps(to);
    two_clusters(to);
    roots(to);
}
