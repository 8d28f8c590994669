// Clusters taken: marked, and linked where they are to be a chain.
ghost use Rattle.std.specs.Prelude.{◌≡◌, true, ◌+◌, ◌-◌, ◌*◌, ◌≤◌, ◌<◌, length};
ghost use Rattle.metadata.specs.Marks.{mark_run};
ghost use Rattle.write_alloc.specs.Take.{link_run, take_each, take_single};
ghost use Rattle.write_alloc.specs.Internal.{prev_taken, taken_from, taken_of, whole_byte};

use boot::system::{Places, System};

// The cluster reached, 0 before the first, and how many are still to be taken.
// Kept: 0 is no cluster's number, and `take_single` takes the cluster before likewise, 0 for none.
#[derive(Clone, Copy)]
pub struct Taken {
    pub prev: u32,
    pub left: u32,
}

// Whether k is the first cluster of its byte of the bitmap, and left clusters from k on are eight or more.
fn whole_byte(k: u32, left: u32) -> bool
    requires { 2 ≤ k }
    ensures { result ≡ whole_byte k left }
{
    8 <= left && (k - 2) % 8 == 0
}

// Marks the n clusters from first: eight at once where they are one byte of the bitmap.
pub fn mark_run<const WIDE: usize>(vol: &mut [u8], sys: &Places<'_, 1, WIDE>, first: u32, n: u32)
    requires { (length vol.old ≡ sys.now.y.len) × ((2 ≤ first) × (first + n ≤ sys.now.y.count + 2)) }
    ensures { vol.new ≡ mark_run sys.now.y vol.old first n }
{
    let end = first + n;
    let mut k = first;
    // Kept: a step is one cluster, or the eight of a byte.
    while k < end {
        if whole_byte(k, end - k) {
            metadata::bitmap::mark_byte(vol, sys, k);
            k += 8;
        } else {
            metadata::bitmap::mark(vol, sys, k, true);
            k += 1;
        }
    }
}

// Links n clusters from first, each to the next one (Rust: `link`, without the end).
pub fn link_run<const APART: usize, const WIDE: usize>(
    vol: &mut [u8],
    sys: &Places<'_, APART, WIDE>,
    first: u32,
    n: u32,
)
    requires { (length vol.old ≡ sys.now.y.len) × (first + n ≤ sys.now.y.count + 2) }
    ensures { vol.new ≡ link_run sys.now.y vol.old first n }
{
    // A copy: what the loop stores in the volume can't change it, so the compiler reads it once and stores four entries at a time.
    let sys = *sys;
    for k in first..first + n {
        metadata::fat::set_fat(vol, &sys, k, k + 1);
    }
}

// Takes one cluster: marks it, and links the one before to it.
fn take_one<const APART: usize, const WIDE: usize>(
    vol: &mut [u8],
    sys: &Places<'_, APART, WIDE>,
    prev: u32,
    k: u32,
)
    requires { (length vol.old ≡ sys.now.y.len) × ((prev < sys.now.y.count + 2) × ((2 ≤ k) × (k < sys.now.y.count + 2))) }
    ensures { vol.new ≡ take_single sys.now.y vol.old prev k }
{
    metadata::bitmap::mark(vol, sys, k, true);
    if prev != 0 {
        metadata::fat::set_fat(vol, sys, prev, k);
    }
}

// Takes usable clusters from `from` on, below end, until none is left to be taken.
pub fn take_usable(vol: &mut [u8], sys: &System<'_>, from: u32, end: u32, start: Taken) -> Taken
    requires { (length vol.old ≡ sys.now.y.len) × ((2 ≤ from) × ((end ≤ sys.now.y.count + 2) × ((start.prev < sys.now.y.count + 2) × (prev_taken sys.now.y vol.old start.prev ≡ true)))) }
    ensures { let ks = taken_from sys.now.y vol.old sys.now.map.now from end start.left in (vol.new ≡ take_each sys.now.y vol.old start.prev ks) × (result ≡ taken_of start ks) }
{
    // A copy, as in `link_run`.
    let sys = *sys;
    let mut taken = start;
    let mut k = from;
    // Kept: a step goes to the next usable cluster, and the count of those left ends it too.
    while k < end && taken.left != 0 {
        let Some(next) = metadata::usable::next_usable(vol, &sys, k, end - k) else {
            break;
        };
        take_one(vol, &sys, taken.prev, next);
        taken = Taken {
            prev: next,
            left: taken.left - 1,
        };
        k = next + 1;
    }
    taken
}
