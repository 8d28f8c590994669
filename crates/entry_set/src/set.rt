// A set built, changed and unset in an array of 608 bytes, before anything is stored.
// Kept: the array is one for sets of any size, and n, here and where a set is copied or stored, counts its entries.
ghost use Rattle.std.specs.Prelude.{◌≡◌, ◌+◌, ◌≤◌, ◌<◌, length};
ghost use Rattle.entry_set.specs.Fields.{name_entries};
ghost use Rattle.entry_set.specs.Put.{put_stamp, put_modified, put_accessed, put_stream, archived, sealed, refreshed, cleared};
ghost use Rattle.entry_set.specs.New.{new_file_entry, new_stream_entry, put_types, unit_at, put_units, new_set};

use crate::stamp::{Stamp, Stamps};
use primitives::checksum::array_checksum;

// Puts a stamp that has an increment: its 4 bytes, its increment and its offset at their places.
fn set_stamp<const VALUE: usize, const INCREMENT: usize, const OFFSET: usize>(
    set: &mut [u8; 608],
    t: Stamp,
)
    requires { (VALUE + 4 ≤ 608) × ((INCREMENT < 608) × (OFFSET < 608)) }
    ensures { set.new ≡ put_stamp VALUE INCREMENT OFFSET set.old t }
{
    primitives::words::put_u32(set, VALUE, t.value);
    set[INCREMENT] = t.increment;
    set[OFFSET] = t.offset;
}

// Puts the modified stamp.
fn set_modified(set: &mut [u8; 608], t: Stamp)
    ensures { set.new ≡ put_modified set.old t }
{
    set_stamp::<12, 21, 23>(set, t);
}

// Puts the accessed stamp, which has no increment.
fn set_accessed(set: &mut [u8; 608], t: Stamp)
    ensures { set.new ≡ put_accessed set.old t }
{
    primitives::words::put_u32(set, 16, t.value);
    set[24] = t.offset;
}

// Puts the stream: flags (bit 0 always, bit 1 for a run), valid length, first cluster, length.
fn set_stream(set: &mut [u8; 608], first: u32, no_fat_chain: bool, valid: u64, len: u64)
    ensures { set.new ≡ put_stream set.old first no_fat_chain valid len }
{
    set[33] = if no_fat_chain { 3 } else { 1 };
    primitives::words::put_u64(set, 40, valid);
    primitives::words::put_u32(set, 52, first);
    primitives::words::put_u64(set, 56, len);
}

// Sets the Archive attribute.
fn set_archive(set: &mut [u8; 608])
    ensures { set.new ≡ archived set.old }
{
    set[4] = primitives::bits::bit_set(set[4], 5);
}

// Puts the stream, the modified and accessed stamps and the Archive attribute; the checksum stays as it was.
fn changed(set: &mut [u8; 608], first: u32, no_fat_chain: bool, valid: u64, len: u64, t: Stamp)
    ensures { set.new ≡ archived (put_accessed (put_modified (put_stream set.old first no_fat_chain valid len) t) t) }
{
    set_stream(set, first, no_fat_chain, valid, len);
    set_modified(set, t);
    set_accessed(set, t);
    set_archive(set);
}

// Puts the checksum of a set's n entries (Rust: `seal`).
fn seal(set: &mut [u8; 608], n: usize)
    requires { n ≤ 19 }
    ensures { set.new ≡ sealed set.old n }
{
    let sum = array_checksum(set, 32 * n);
    primitives::words::put_u16(set, 2, sum);
}

// What write and set length make of a set of n entries (Rust: `record`).
pub fn refreshed(
    set: &mut [u8; 608],
    n: usize,
    first: u32,
    no_fat_chain: bool,
    valid: u64,
    len: u64,
    t: Stamp,
)
    requires { n ≤ 19 }
    ensures { set.new ≡ refreshed set.old n first no_fat_chain valid len t }
{
    changed(set, first, no_fat_chain, valid, len, t);
    seal(set, n);
}

// Clears the InUse bit of a set's n entries.
pub fn cleared(set: &mut [u8; 608], n: usize)
    requires { n ≤ 19 }
    ensures { set.new ≡ cleared set.old n }
{
    for i in 0..n {
        set[32 * i] = primitives::bits::bit_clear(set[32 * i], 7);
    }
}

// The name entries that a name of n units takes.
pub fn name_entries(n: usize) -> usize
    requires { n ≤ 255 }
    ensures { (result ≡ name_entries n) × (result ≤ 17) }
{
    (n + 14) / 15
}

// Puts the file entry of a new set.
fn new_file_entry(set: &mut [u8; 608], n: usize, attributes: u16, t: Stamps)
    requires { n ≤ 255 }
    ensures { set.new ≡ new_file_entry set.old n attributes t }
{
    set[0] = 0x85;
    set[1] = (1 + name_entries(n)) as u8;
    primitives::words::put_u16(set, 4, attributes);
    set_stamp::<8, 20, 22>(set, t.created);
    set_modified(set, t.modified);
    set_accessed(set, t.accessed);
}

// Puts the stream extension entry of a new set.
fn new_stream_entry(set: &mut [u8; 608], n: usize, hash: u16)
    requires { n ≤ 255 }
    ensures { set.new ≡ new_stream_entry set.old n hash }
{
    set[32] = 0xC0;
    set[35] = n as u8;
    primitives::words::put_u16(set, 36, hash);
    set_stream(set, 0, false, 0, 0);
}

// Puts the types of the first n name entries.
fn put_types(set: &mut [u8; 608], n: usize)
    requires { n ≤ 17 }
    ensures { set.new ≡ put_types set.old n }
{
    for i in 0..n {
        set[64 + 32 * i] = 0xC1;
    }
}

// Where unit i of the name stands in a set.
fn unit_at(i: usize) -> usize
    requires { i < 255 }
    ensures { (result ≡ unit_at i) × (result + 2 ≤ 608) }
{
    64 + 32 * (i / 15) + 2 + 2 * (i % 15)
}

// Puts the units of the name.
fn put_units(set: &mut [u8; 608], name: &[u16])
    requires { length name.now ≤ 255 }
    ensures { set.new ≡ put_units set.old name.now (length name.now) }
{
    for (i, unit) in name.iter().enumerate() {
        primitives::words::put_u16(set, unit_at(i), *unit);
    }
}

// The set of a new file.
pub fn new_set(name: &[u16], attributes: u16, hash: u16, t: Stamps) -> [u8; 608]
    requires { length name.now ≤ 255 }
    ensures { result ≡ new_set name.now attributes hash t }
{
    let names = name_entries(name.len());
    let mut set = [0u8; 608];
    new_file_entry(&mut set, name.len(), attributes, t);
    new_stream_entry(&mut set, name.len(), hash);
    put_types(&mut set, names);
    put_units(&mut set, name);
    seal(&mut set, 2 + names);
    set
}
