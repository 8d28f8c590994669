// Allocate: a new stream (Rust: `allocate_clusters`).
ghost use Rattle.std.specs.Prelude.{◌≡◌, true, ℕ, ◌+◌, ◌-◌, ◌*◌, ◌≤◌, ◌<◌, length, take, is_some, unwrap_or, IsOk};
ghost use Rattle.tables.specs.Count.{count};
ghost use Rattle.tables.specs.Lists.{last_or};
ghost use Rattle.metadata.specs.Fat.{END, set_fat};
ghost use Rattle.metadata.specs.Usable.{is_usable};
ghost use Rattle.choice.specs.Choice.{around};
ghost use Rattle.write_alloc.specs.Take.{take_each};
ghost use Rattle.write_alloc.specs.Internal.{prev_ok};
ghost use Rattle.boot.specs.Causes.{wrap};
ghost use Rattle.stream.specs.Stream.{empty};
ghost use Rattle.write_alloc.specs.Outcome.{success, answer_of};
ghost use Rattle.write_alloc.specs.Allocate.{new_run, new_chain, new_stream, allocate_in, allocate_clusters};

use crate::answer::Updated;
use crate::take::Taken;
use boot::cause::Cause;
use boot::geometry::Geometry;
use boot::system::{Places, System};
use choice::choice::Choice;
use stream::allocation::Allocation;

// k, or 2 past the end of the heap.
pub fn wrap_cluster(count: u32, k: u32) -> u32
    requires { count ≤ 32768 }
    ensures { result ≡ wrap count k }
{
    if k < count + 2 { k } else { 2 }
}

// Takes n usable clusters from start to the end of the heap, then from 2, each linked from the one before; answers the last.
fn take_around(vol: &mut [u8], sys: &System<'_>, start: u32, n: u32, prev: u32) -> u32
    requires { (length vol.old ≡ sys.now.y.len) × ((2 ≤ start) × ((start < sys.now.y.count + 2) × (prev_ok sys.now.y vol.old prev ≡ true))) }
    ensures { let ks = take n (around (is_usable sys.now.y vol.old sys.now.map.now) sys.now.y.count start) in (vol.new ≡ take_each sys.now.y vol.old prev ks) × (result ≡ last_or prev ks) }
{
    let begin = Taken { prev, left: n };
    let after = crate::take::take_usable(vol, sys, start, sys.y.count + 2, begin);
    crate::take::take_usable(vol, sys, 2, start, after).prev
}

// The same, with the last cluster made the end of the chain.
pub fn take_chain(vol: &mut [u8], sys: &System<'_>, start: u32, n: u32, prev: u32) -> u32
    requires { (length vol.old ≡ sys.now.y.len) × ((2 ≤ start) × ((start < sys.now.y.count + 2) × ((prev_ok sys.now.y vol.old prev ≡ true) × ((1 ≤ n) × (n ≤ count (is_usable sys.now.y vol.old sys.now.map.now) 2 sys.now.y.count))))) }
    ensures { let ks = take n (around (is_usable sys.now.y vol.old sys.now.map.now) sys.now.y.count start) in (vol.new ≡ set_fat sys.now.y (take_each sys.now.y vol.old prev ks) result END) × ((result ≡ last_or prev ks) × (result < sys.now.y.count + 2)) }
{
    let last = take_around(vol, sys, start, n, prev);
    metadata::fat::set_fat(vol, sys, last, 0xFFFF_FFFF);
    last
}

// n clusters from k as a run: marked, their FAT entries untouched.
fn new_run<const WIDE: usize>(vol: &mut [u8], sys: &Places<'_, 1, WIDE>, k: u32, n: u32) -> Updated
    requires { (length vol.old ≡ sys.now.y.len) × ((2 ≤ k) × ((k + n ≤ sys.now.y.count + 2) × (1 ≤ n))) }
    ensures { let o = new_run sys.now.y vol.old k n in (success result ≡ o.answer) × (vol.new ≡ o.volume) }
{
    crate::take::mark_run(vol, sys, k, n);
    let allocation = Allocation {
        first: k,
        last: k + n - 1,
        count: n,
        no_fat_chain: true,
    };
    let hint = wrap_cluster(sys.y.count, k + n);
    Updated { allocation, hint }
}

// n usable clusters from start on, then from 2, as a chain: marked, and linked in that order.
fn new_chain(vol: &mut [u8], sys: &System<'_>, start: u32, n: u32) -> Updated
    requires { (length vol.old ≡ sys.now.y.len) × ((2 ≤ start) × ((start < sys.now.y.count + 2) × ((1 ≤ n) × (n ≤ count (is_usable sys.now.y vol.old sys.now.map.now) 2 sys.now.y.count)))) }
    ensures { let o = new_chain sys.now.y vol.old (take n (around (is_usable sys.now.y vol.old sys.now.map.now) sys.now.y.count start)) in (success result ≡ o.answer) × (vol.new ≡ o.volume) }
{
    let first = choice::choice::first_usable(vol, sys, start);
    let last = take_chain(vol, sys, start, n, 0);
    let allocation = Allocation {
        first,
        last,
        count: n,
        no_fat_chain: false,
    };
    let hint = wrap_cluster(sys.y.count, last + 1);
    Updated { allocation, hint }
}

// A new stream of n clusters for a search that starts at start.
pub fn new_stream(vol: &mut [u8], sys: &System<'_>, n: u32, start: u32) -> Result<Updated, Cause>
    requires { (length vol.old ≡ sys.now.y.len) × ((2 ≤ start) × ((start < sys.now.y.count + 2) × (1 ≤ n))) }
    ensures { ((hint : ℕ) → let o = new_stream sys.now.y vol.old sys.now.map.now n start hint in (answer_of empty hint result ≡ o.answer) × (vol.new ≡ o.volume)) × (n ≤ count (is_usable sys.now.y vol.old sys.now.map.now) 2 sys.now.y.count → IsOk result) }
{
    match choice::choice::choose_clusters(vol, sys, start, n) {
        Choice::Run(k) => Ok(new_run(vol, sys, k, n)),
        Choice::Scattered => Ok(new_chain(vol, sys, start, n)),
        Choice::TooFew => Err(Cause::NoSpace),
    }
}

// Allocate on a volume that keeps the limits, searched from near on, or from the hint without it. Fewer usable clusters than n are too few
// whatever the free count is: it is asked only where near is refused.
pub fn allocate_in(
    vol: &mut [u8],
    sys: &System<'_>,
    n: u32,
    near: Option<u32>,
    hint: u32,
) -> Result<Updated, Cause>
    requires { length vol.old ≡ sys.now.y.len }
    ensures { let o = allocate_in sys.now.y vol.old sys.now.map.now n (is_some near) (unwrap_or near 0) hint in (answer_of empty hint result ≡ o.answer) × (vol.new ≡ o.volume) }
{
    if !boot::layout::in_heap(sys.y.count, hint) {
        return Err(Cause::OutsideHeap);
    }
    if n == 0 {
        return Ok(Updated {
            allocation: stream::allocation::empty_record(),
            hint,
        });
    }
    let start = near.unwrap_or(hint);
    if boot::layout::in_heap(sys.y.count, start) {
        return new_stream(vol, sys, n, start);
    }
    if metadata::bitmap::free_count(vol, sys) < n {
        return Err(Cause::NoSpace);
    }
    Err(Cause::OutsideHeap)
}

// Allocates n clusters as a new stream, near a cluster where one is given.
pub fn allocate_clusters(
    vol: &mut [u8],
    map: &[u8],
    g: Geometry,
    n: u32,
    near: Option<u32>,
    hint: u32,
) -> Result<Updated, Cause>
    ensures { let o = allocate_clusters g vol.old map.now n (is_some near) (unwrap_or near 0) hint in (answer_of empty hint result ≡ o.answer) × (vol.new ≡ o.volume) }
{
    let sys = boot::system::admit(g, vol.len(), map)?;
    allocate_in(vol, &sys, n, near, hint)
}
