// Calls of what only a caller outside this repository calls.
use crate::directory::OpenDirectory;
use boot::geometry::geometry_of;
use boot::system::admit;
use primitives::words::put_u32;

// A volume of 16 clusters of 512 bytes, the first at byte 16,384, its root in cluster 3: bytes at the ends of clusters.
#[test]
fn bytes_of_an_opened_directory(rt: HostRuntime) {
    let mut vol = [0u8; 24576];
    put_u32(&mut vol, 12300, 0xFFFF_FFFF);
    vol[16384] = 3;
    vol[16895] = 0x11;
    vol[16896] = 0x22;
    vol[16897] = 0x33;
    vol[17407] = 0x44;
    vol[17408] = 0x55;
    vol[24575] = 0xE6;
    let g = geometry_of(&[9, 0, 24, 1, 1, 0, 32, 16, 3, 2, 0]);
    let sys = admit(g, vol.len(), b"\x03\x00").expect(&rt, "the geometry is refused");
    assert_eq!(rt; sys.y.len, vol.len());
    let d = OpenDirectory::root_dir(&vol, &sys, 3).expect(&rt, "the root does not read");
    for (k, at, b) in [
        (2, 511, 0x11),
        (3, 0, 0x22),
        (3, 1, 0x33),
        (3, 2, 0),
        (3, 511, 0x44),
        (4, 0, 0x55),
        (17, 511, 0xE6),
    ] {
        assert!(rt; 2 <= k && k < d.sys.y.count + 2 && at < d.sys.y.size);
        assert_eq!(rt; d.byte_at(k, at), b);
    }
}
