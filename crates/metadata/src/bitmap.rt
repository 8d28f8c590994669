// The marks of clusters: read from the active FAT's bitmap, stored to every bitmap.
ghost use Rattle.std.specs.Prelude.{◌≡◌, not, ◌+◌, ◌-◌, ◌%◌, ◌≤◌, ◌<◌, length, take, drop};
ghost use Rattle.boot.specs.Geometry.{bitmap_bytes};
ghost use Rattle.search.specs.Search.{all_from};
ghost use Rattle.metadata.specs.Marks.{marked, put_byte, set_mark, mark_run, allocated_count, free_count};
ghost use Rattle.metadata.specs.Internal.{first_unmarked, byte_unmarked};

use boot::system::Places;

// Whether cluster k is marked.
pub fn allocated<const APART: usize, const WIDE: usize>(
    vol: &[u8],
    sys: &Places<'_, APART, WIDE>,
    k: u32,
) -> bool
    requires { (length vol.now ≡ sys.now.y.len) × ((2 ≤ k) × (k < sys.now.y.count + 2)) }
    ensures { result ≡ marked sys.now.y vol.now k }
{
    let at = sys.y.bitmap + ((k - 2) / 8) as usize;
    primitives::bits::bit_test(vol[at], ((k - 2) % 8) as u8)
}

// Stores b as byte i of every bitmap.
fn put_byte<const APART: usize, const WIDE: usize>(
    vol: &mut [u8],
    sys: &Places<'_, APART, WIDE>,
    i: usize,
    b: u8,
)
    requires { (length vol.old ≡ sys.now.y.len) × (i < bitmap_bytes sys.now.y.count) }
    ensures { vol.new ≡ put_byte sys.now.y vol.old i b }
{
    let at = sys.y.bitmap0 + i;
    vol[at] = b;
    if sys.y.two {
        let other = sys.y.bitmap1 + i;
        vol[other] = b;
    }
}

// Marks cluster k, or unmarks it: the active bitmap's byte is read, and every bitmap takes the changed byte whole.
pub fn mark<const APART: usize, const WIDE: usize>(
    vol: &mut [u8],
    sys: &Places<'_, APART, WIDE>,
    k: u32,
    on: bool,
)
    requires { (length vol.old ≡ sys.now.y.len) × ((2 ≤ k) × (k < sys.now.y.count + 2)) }
    ensures { vol.new ≡ set_mark sys.now.y vol.old k on }
{
    let i = ((k - 2) / 8) as usize;
    let at = sys.y.bitmap + i;
    let b = primitives::bits::bit_put(vol[at], ((k - 2) % 8) as u8, on);
    put_byte(vol, sys, i, b);
}

// Marks the eight clusters from k, the first one of its byte: every bitmap takes the byte 0xFF.
pub fn mark_byte<const WIDE: usize>(vol: &mut [u8], sys: &Places<'_, 1, WIDE>, k: u32)
    requires { (length vol.old ≡ sys.now.y.len) × ((2 ≤ k) × ((k + 8 ≤ sys.now.y.count + 2) × ((k - 2) % 8 ≡ 0))) }
    ensures { vol.new ≡ mark_run sys.now.y vol.old k 8 }
{
    let i = ((k - 2) / 8) as usize;
    put_byte(vol, sys, i, 0xFF);
}

// The active FAT's bitmap.
fn bitmap<'a, const APART: usize, const WIDE: usize>(
    vol: &'a [u8],
    sys: &Places<'_, APART, WIDE>,
) -> &'a [u8]
    requires { length vol.now ≡ sys.now.y.len }
    ensures { (result.now ≡ take (bitmap_bytes sys.now.y.count) (drop sys.now.y.bitmap vol.now)) × (result.ref_ptr ≡ (vol.entry.ref_ptr.0, vol.entry.ref_ptr.1 + sys.now.y.bitmap)) }
{
    &vol[sys.y.bitmap..sys.y.bitmap + ((sys.y.count + 7) / 8) as usize]
}

// How many clusters it marks.
fn allocated_count<const APART: usize, const WIDE: usize>(
    vol: &[u8],
    sys: &Places<'_, APART, WIDE>,
) -> u32
    requires { length vol.now ≡ sys.now.y.len }
    ensures { (result ≡ allocated_count sys.now.y vol.now) × (result ≤ sys.now.y.count) }
{
    primitives::count::bitmap_count(bitmap(vol, sys), sys.y.count)
}

// How many clusters it leaves unmarked.
pub fn free_count<const APART: usize, const WIDE: usize>(
    vol: &[u8],
    sys: &Places<'_, APART, WIDE>,
) -> u32
    requires { length vol.now ≡ sys.now.y.len }
    ensures { result ≡ free_count sys.now.y vol.now }
{
    sys.y.count - allocated_count(vol, sys)
}

// The first of the n clusters from k that is not marked; k + n where there is none. Bytes of marks alone are passed at once.
// Kept: k + n is where a search goes on, which the callers count with.
pub fn first_unmarked<const APART: usize, const WIDE: usize>(
    vol: &[u8],
    sys: &Places<'_, APART, WIDE>,
    k: u32,
    n: u32,
) -> u32
    requires { (length vol.now ≡ sys.now.y.len) × ((2 ≤ k) × (k + n ≤ sys.now.y.count + 2)) }
    ensures { (result ≡ first_unmarked sys.now.y vol.now k n) × ((k ≤ result) × (result ≤ k + n)) }
{
    primitives::bits::first_bit(bitmap(vol, sys), 0, k - 2, n) + 2
}

// Whether none of the n clusters from first is marked. Bytes of none marked are passed at once.
pub fn none_marked<const APART: usize, const WIDE: usize>(
    vol: &[u8],
    sys: &Places<'_, APART, WIDE>,
    first: u32,
    n: u32,
) -> bool
    requires { (length vol.now ≡ sys.now.y.len) × ((2 ≤ first) × (first + n ≤ sys.now.y.count + 2)) }
    ensures { result ≡ all_from (λ k. not (marked sys.now.y vol.now k)) first n }
{
    primitives::bits::none_set(bitmap(vol, sys), first - 2, n)
}

// Whether cluster k is the last one of its byte, and the byte marks none.
#[tactic(auto, unfolding(crate::specs::Internal::byte_unmarked, crate::specs::Marks::mark_byte))]
pub fn byte_unmarked<const APART: usize, const WIDE: usize>(
    vol: &[u8],
    sys: &Places<'_, APART, WIDE>,
    k: u32,
) -> bool
    requires { (length vol.now ≡ sys.now.y.len) × ((2 ≤ k) × (k < sys.now.y.count + 2)) }
    ensures { result ≡ byte_unmarked sys.now.y vol.now k }
{
    (k - 2) % 8 == 7 && vol[sys.y.bitmap + ((k - 2) / 8) as usize] == 0
}
