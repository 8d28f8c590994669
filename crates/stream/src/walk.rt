// A record's clusters walked and tested: what refuses it.
ghost use Rattle.std.specs.Prelude.{◌≡◌, Ok, not, false, ◌+◌, ◌-◌, ◌*◌, ◌≤◌, ◌<◌, min, length};
ghost use Rattle.boot.specs.Causes.{number};
ghost use Rattle.metadata.specs.Fat.{fat_entry};
ghost use Rattle.metadata.specs.Marks.{marked};
ghost use Rattle.metadata.specs.Internal.{first_unmarked};
ghost use Rattle.stream.specs.Chain.{read_chain};
ghost use Rattle.stream.specs.Internal.{after, barred, walked, walked_of, walk_cause, chain_clear, stream_clear};
ghost use Rattle.stream.specs.Stream.{run_cause, read_run, check_chain, stream_of, number_of};

use crate::allocation::Allocation;
use boot::cause::Cause;
use boot::system::Places;

// A chain walked to its end: its last cluster, its length, whether all are marked, whether none is barred (number 9), and the cluster
// that the caller looks for, 0 where the chain ends before it.
// Kept: a caller looks for a cluster of the stream, and tests the chain's length first, so that it never reads the 0.
#[derive(Clone, Copy)]
pub struct Walk {
    pub last: u32,
    pub count: u32,
    pub marked: bool,
    pub clear: bool,
    pub seen: u32,
}

// A record's clusters tested: what refuses them, and whether a walk of them saw that none is a system cluster, which it tells of a chain
// that is refused too.
#[derive(Clone, Copy)]
pub struct Tested {
    pub outcome: Result<(), Cause>,
    pub clear: bool,
}

// Whether cluster k may not be in a stream (number 9): a bitmap's cluster in the root directory, a system cluster in any other stream.
fn is_barred<const APART: usize>(sys: &Places<'_, APART, 1>, root: bool, k: u32) -> bool
    requires { (2 ≤ k) × (k < sys.now.y.count + 2) }
    ensures { result ≡ barred sys.now.y sys.now.map.now root k }
{
    if root {
        return boot::layout::is_bitmap_cluster(sys.y, k);
    }
    boot::geometry::in_map(sys.map, k)
}

// The chain from first, a cluster of the heap, walked once, as the root directory's or as another stream's (Rust: `fat_chain`); the
// cluster `goal` steps from the first is noted on the way. A function by itself in the machine code too: inside its callers the loop
// would not have what it reads in registers.
#[inline(never)]
pub fn fat_chain<const APART: usize>(
    vol: &[u8],
    sys: &Places<'_, APART, 1>,
    root: bool,
    first: u32,
    goal: u32,
) -> Result<Walk, Cause>
    requires { (length vol.now ≡ sys.now.y.len) × ((2 ≤ first) × (first < sys.now.y.count + 2)) }
    ensures { walked_of result ≡ walked (marked sys.now.y vol.now) (λ k. not (barred sys.now.y sys.now.map.now root k)) goal (read_chain sys.now.y.count (fat_entry sys.now.y vol.now) first) }
{
    let mut k = first;
    let mut all = true;
    let mut clear = true;
    let mut seen: u32 = 0;
    for before in 0..sys.y.count {
        let v = metadata::fat::fat_entry(vol, sys, k);
        all &= metadata::bitmap::allocated(vol, sys, k);
        clear &= !is_barred(sys, root, k);
        if before == goal {
            seen = k;
        }
        if !boot::layout::in_heap(sys.y.count, v) {
            if v == 0xFFFF_FFFF {
                return Ok(Walk {
                    last: k,
                    count: before + 1,
                    marked: all,
                    clear,
                    seen,
                });
            }
            return Err(Cause::NoCluster);
        }
        k = v;
    }
    Err(Cause::Endless)
}

// Refuses the n clusters from first as a run by the earliest that is outside the heap or unmarked.
fn run_cause<const APART: usize, const WIDE: usize>(
    vol: &[u8],
    sys: &Places<'_, APART, WIDE>,
    first: u32,
    n: u32,
) -> Result<(), Cause>
    requires { (length vol.now ≡ sys.now.y.len) × (1 ≤ n) }
    ensures { number result ≡ run_cause sys.now.y.count (marked sys.now.y vol.now) first n }
{
    if boot::layout::in_heap(sys.y.count, first) {
        let next = metadata::bitmap::first_unmarked(
            vol,
            sys,
            first,
            n.min(sys.y.count + 2 - first),
        );
        if next - first == n {
            return Ok(());
        }
        if boot::layout::in_heap(sys.y.count, next) {
            return Err(Cause::Unmarked);
        }
    }
    Err(Cause::OutsideHeap)
}

// Refuses a run by its length, then by its clusters.
fn read_run<const APART: usize, const WIDE: usize>(
    vol: &[u8],
    sys: &Places<'_, APART, WIDE>,
    a: Allocation,
) -> Result<(), Cause>
    requires { (length vol.now ≡ sys.now.y.len) × (1 ≤ a.count) }
    ensures { number result ≡ number_of (read_run sys.now.y.count (marked sys.now.y vol.now) a.first a.last a.count) }
{
    if u64::from(a.last) + 1 != u64::from(a.first) + u64::from(a.count) {
        return Err(Cause::OtherChain);
    }
    run_cause(vol, sys, a.first, a.count)
}

// Refuses a walked chain that has not this last cluster and so many clusters, then one that is not all marked.
#[tactic(auto, unfolding(crate::specs::Internal::walk_cause))]
pub fn walk_cause(w: Walk, last: u32, count: u32) -> Result<(), Cause>
    ensures { number result ≡ walk_cause (walked_of (Ok w)) last count }
{
    if w.count != count || w.last != last {
        return Err(Cause::OtherChain);
    }
    if w.marked {
        Ok(())
    } else {
        Err(Cause::Unmarked)
    }
}

// Tests a chain by its walk, then by its length and last cluster, then by its marks.
fn read_chain<const APART: usize>(vol: &[u8], sys: &Places<'_, APART, 1>, a: Allocation) -> Tested
    requires { length vol.now ≡ sys.now.y.len }
    ensures { (number result.outcome ≡ number_of (check_chain (marked sys.now.y vol.now) a.last a.count (read_chain sys.now.y.count (fat_entry sys.now.y vol.now) a.first))) × (result.clear ≡ chain_clear sys.now.y vol.now sys.now.map.now a.first) }
{
    if !boot::layout::in_heap(sys.y.count, a.first) {
        return Tested {
            outcome: Err(Cause::OutsideHeap),
            clear: false,
        };
    }
    match fat_chain(vol, sys, false, a.first, 0) {
        Ok(w) => Tested {
            outcome: walk_cause(w, a.last, a.count),
            clear: w.clear,
        },
        Err(cause) => Tested {
            outcome: Err(cause),
            clear: false,
        },
    }
}

// A record's clusters tested (Rust: `clusters`, and the test of it).
pub fn stream_test<const APART: usize>(
    vol: &[u8],
    sys: &Places<'_, APART, 1>,
    a: Allocation,
) -> Tested
    requires { length vol.now ≡ sys.now.y.len }
    ensures { (number result.outcome ≡ number_of (stream_of sys.now.y vol.now a)) × (result.clear ≡ stream_clear sys.now.y vol.now sys.now.map.now a) }
{
    if a.count == 0 {
        return Tested {
            outcome: Ok(()),
            clear: false,
        };
    }
    if a.no_fat_chain {
        return Tested {
            outcome: read_run(vol, sys, a),
            clear: false,
        };
    }
    read_chain(vol, sys, a)
}

// Refuses a record by its clusters.
pub fn stream_cause<const APART: usize>(
    vol: &[u8],
    sys: &Places<'_, APART, 1>,
    a: Allocation,
) -> Result<(), Cause>
    requires { length vol.now ≡ sys.now.y.len }
    ensures { number result ≡ number_of (stream_of sys.now.y vol.now a) }
{
    stream_test(vol, sys, a).outcome
}

// The cluster after k in a stream.
pub fn next_cluster<const APART: usize, const WIDE: usize>(
    vol: &[u8],
    sys: &Places<'_, APART, WIDE>,
    run: bool,
    k: u32,
) -> u32
    requires { (length vol.now ≡ sys.now.y.len) × (k < sys.now.y.count + 2) }
    ensures { result ≡ after (fat_entry sys.now.y vol.now) run k }
{
    if run {
        return k + 1;
    }
    metadata::fat::fat_entry(vol, sys, k)
}
