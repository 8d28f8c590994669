// The fields of a set in an array of 608 bytes, and whether the set is that of a sound file entry.
ghost use Rattle.std.specs.Prelude.{◌≡◌, ◌&&◌, ◌||◌, not, ◌+◌, ◌≤◌, ◌<◌, leb};
ghost use Rattle.boot.specs.Layout.{in_heap};
ghost use Rattle.entry_set.specs.Fields.{secondary_count, set_checksum, is_directory, allocation_possible, no_fat_chain, name_length, valid_length, first_cluster, data_length, clusters_for};
ghost use Rattle.entry_set.specs.Sound.{head_ok, stream_entry_ok, names_ok, lengths_ok, well_formed};

use crate::set::name_entries;

// The entries after the file entry.
pub fn secondary_count(set: &[u8; 608]) -> usize
    ensures { (result ≡ secondary_count set.now) × (result < 256) }
{
    usize::from(set[1])
}

// The checksum that the set has stored.
fn set_checksum(set: &[u8; 608]) -> u16
    ensures { result ≡ set_checksum set.now }
{
    primitives::words::u16_at(set, 2)
}

// Whether the entry is a directory.
pub fn is_directory(set: &[u8; 608]) -> bool
    ensures { result ≡ is_directory set.now }
{
    primitives::bits::bit_test(set[4], 4)
}

// Whether the stream's flag bit 0 is set.
fn allocation_possible(set: &[u8; 608]) -> bool
    ensures { result ≡ allocation_possible set.now }
{
    primitives::bits::bit_test(set[33], 0)
}

// The run flag.
pub fn no_fat_chain(set: &[u8; 608]) -> bool
    ensures { result ≡ no_fat_chain set.now }
{
    primitives::bits::bit_test(set[33], 1)
}

// The units of the name.
fn name_length(set: &[u8; 608]) -> usize
    ensures { (result ≡ name_length set.now) × (result < 256) }
{
    usize::from(set[35])
}

// How many bytes of the stream were ever written.
pub fn valid_length(set: &[u8; 608]) -> u64
    ensures { result ≡ valid_length set.now }
{
    primitives::words::u64_at(set, 40)
}

// The stream's first cluster, 0 where it is empty.
// Kept: the standard stores 0 there.
pub fn first_cluster(set: &[u8; 608]) -> u32
    ensures { result ≡ first_cluster set.now }
{
    primitives::words::u32_at(set, 52)
}

// The stream's length in bytes.
pub fn data_length(set: &[u8; 608]) -> u64
    ensures { result ≡ data_length set.now }
{
    primitives::words::u64_at(set, 56)
}

// The clusters that len bytes take, the last one perhaps in part.
pub fn clusters_for(size: usize, len: u64) -> u64
    requires { 1 ≤ size }
    ensures { result ≡ clusters_for size len }
{
    len.div_ceil(size as u64)
}

// The file entry's type, and its count that fits the name's length.
fn head_ok(set: &[u8; 608]) -> bool
    ensures { result ≡ head_ok set.now }
{
    let n = secondary_count(set);
    let units = name_length(set);
    set[0] == 0x85 && (2..=18).contains(&n) && n == 1 + name_entries(units) && units != 0
}

// The checksum, and the stream extension's type and flag.
fn stream_entry_ok(set: &[u8; 608]) -> bool
    requires { secondary_count set.now ≤ 18 }
    ensures { result ≡ stream_entry_ok set.now }
{
    let sum = primitives::checksum::array_checksum(set, 32 * (1 + secondary_count(set)));
    set_checksum(set) == sum && set[32] == 0xC0 && allocation_possible(set)
}

// The types and flags of the first n name entries.
// Kept: n counts entries, and a set is 608 bytes whatever their count.
fn names_ok(set: &[u8; 608], n: usize) -> bool
    requires { n ≤ 17 }
    ensures { result ≡ names_ok set.now n }
{
    (0..n).all(|i| set[32 * (2 + i)] == 0xC1 && set[32 * (2 + i) + 1] % 4 == 0)
}

// A stream of n clusters begins in the heap, has no more clusters than the heap and, as a run, ends in it.
fn clusters_ok(count: u32, first: u32, run: bool, n: u64) -> bool
    requires { count ≤ 32768 }
    ensures { result ≡ in_heap count first && (leb n count && (not run || leb (first + n) (count + 2))) }
{
    boot::layout::in_heap(count, first)
        && n <= u64::from(count)
        && (!run || u64::from(first) + n <= u64::from(count) + 2)
}

// The stream's lengths, first cluster and run flag: an empty stream has first cluster 0 and no run flag.
fn lengths_ok(set: &[u8; 608], count: u32, size: usize) -> bool
    requires { (1 ≤ size) × (count ≤ 32768) }
    ensures { result ≡ lengths_ok count size set.now }
{
    let len = data_length(set);
    let first = first_cluster(set);
    let run = no_fat_chain(set);
    if len < valid_length(set) {
        false
    } else if len == 0 {
        first == 0 && !run
    } else {
        clusters_ok(count, first, run, clusters_for(size, len))
    }
}

// Whether the set's bytes are those of a sound file entry.
pub fn well_formed(set: &[u8; 608], count: u32, size: usize) -> bool
    requires { (1 ≤ size) × (count ≤ 32768) }
    ensures { result ≡ well_formed count size set.now }
{
    head_ok(set)
        && stream_entry_ok(set)
        && names_ok(set, name_entries(name_length(set)))
        && lengths_ok(set, count, size)
}
