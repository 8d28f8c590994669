// Which clusters are taken: the lowest run that fits, else usable clusters one by one.
ghost use Rattle.std.specs.Prelude.{◌≡◌, not, ◌+◌, ◌-◌, ◌*◌, ◌≤◌, ◌<◌, min, leb, length};
ghost use Rattle.tables.specs.Count.{count};
ghost use Rattle.metadata.specs.Marks.{marked};
ghost use Rattle.metadata.specs.Usable.{is_usable};
ghost use Rattle.search.specs.Search.{run_from};
ghost use Rattle.search.specs.Internal.{past_failing};
ghost use Rattle.choice.specs.Choice.{choose};
ghost use Rattle.choice.specs.Internal.{first_usable, run_fits};

use boot::system::Places;

// A run from a cluster on, usable clusters one by one, or too few.
#[derive(Clone, Copy)]
pub enum Choice {
    Run(u32),
    Scattered,
    TooFew,
}

// One past the last of the n clusters from low that is not usable; low where all are. More than one cluster is tested at once first.
fn usable_tail<const APART: usize>(vol: &[u8], sys: &Places<'_, APART, 1>, low: u32, n: u32) -> u32
    requires { (length vol.now ≡ sys.now.y.len) × ((2 ≤ low) × (low + n ≤ sys.now.y.count + 2)) }
    ensures { (result ≡ past_failing (is_usable sys.now.y vol.now sys.now.map.now) low n) × ((low ≤ result) × (result ≤ low + n)) }
{
    if 1 < n && metadata::usable::run_is_free(vol, sys, low, n) {
        return low;
    }
    for last in (low..low + n).rev() {
        if !metadata::usable::usable(vol, sys, last) {
            return last + 1;
        }
    }
    low
}

// One past the last of the n clusters from low that is marked; low where none is. A byte of none marked is one test.
fn unmarked_tail<const APART: usize, const WIDE: usize>(
    vol: &[u8],
    sys: &Places<'_, APART, WIDE>,
    low: u32,
    n: u32,
) -> u32
    requires { (length vol.now ≡ sys.now.y.len) × ((2 ≤ low) × (low + n ≤ sys.now.y.count + 2)) }
    ensures { (result ≡ past_failing (λ k. not (marked sys.now.y vol.now k)) low n) × ((low ≤ result) × (result ≤ low + n)) }
{
    let mut k = low + n;
    // Kept: a step is one cluster, or the eight of an unmarked byte.
    while low < k {
        let last = k - 1;
        if metadata::bitmap::allocated(vol, sys, last) {
            return k;
        }
        if metadata::bitmap::byte_unmarked(vol, sys, last) {
            if k < low + 8 {
                return low;
            }
            k -= 8;
        } else {
            k = last;
        }
    }
    low
}

// The lowest run of n usable clusters from start to end (Rust: the closure `scan` of `free_run`). A window of n clusters is tested
// from its end, by its marks first; no run starts before base. Behind a window whose last cluster is marked, the marked ones are passed.
fn scan<const APART: usize>(
    vol: &[u8],
    sys: &Places<'_, APART, 1>,
    start: u32,
    end: u32,
    n: u32,
) -> Option<u32>
    requires { (length vol.now ≡ sys.now.y.len) × ((2 ≤ start) × ((start ≤ end) × ((end ≤ sys.now.y.count + 2) × (1 ≤ n)))) }
    ensures { result ≡ run_from (is_usable sys.now.y vol.now sys.now.map.now) end n start }
{
    let mut base = start;
    // Kept: a step goes behind what keeps the window from being a run.
    while n <= end - base {
        let next = unmarked_tail(vol, sys, base, n);
        if next == base {
            let last = usable_tail(vol, sys, base, n);
            if last == base {
                return Some(base);
            }
            base = last;
        } else if next == base + n {
            base = metadata::bitmap::first_unmarked(vol, sys, next, end - next);
        } else {
            base = next;
        }
    }
    None
}

// Whether n clusters or more are usable, counted.
fn counts_to<const APART: usize>(vol: &[u8], sys: &Places<'_, APART, 1>, n: u64) -> bool
    requires { length vol.now ≡ sys.now.y.len }
    ensures { result ≡ leb n (count (is_usable sys.now.y vol.now sys.now.map.now) 2 sys.now.y.count) }
{
    let end = sys.y.count + 2;
    let mut k: u32 = 2;
    for _ in 0..n {
        let Some(next) = metadata::usable::next_usable(vol, sys, k, end - k) else {
            return false;
        };
        k = next + 1;
    }
    true
}

// Whether the n clusters from near lie in the heap and are all usable.
fn run_fits<const APART: usize>(vol: &[u8], sys: &Places<'_, APART, 1>, near: u32, n: u64) -> bool
    requires { length vol.now ≡ sys.now.y.len }
    ensures { result ≡ run_fits (is_usable sys.now.y vol.now sys.now.map.now) sys.now.y.count near n }
{
    boot::layout::in_heap(sys.y.count, near)
        && n <= u64::from(sys.y.count + 2 - near)
        && metadata::usable::run_is_free(vol, sys, near, n as u32)
}

// Whether n clusters or more are usable: those from near on are looked at first, and counted only where they do not suffice.
pub fn enough<const APART: usize>(vol: &[u8], sys: &Places<'_, APART, 1>, near: u32, n: u64) -> bool
    requires { length vol.now ≡ sys.now.y.len }
    ensures { result ≡ leb n (count (is_usable sys.now.y vol.now sys.now.map.now) 2 sys.now.y.count) }
{
    run_fits(vol, sys, near, n) || counts_to(vol, sys, n)
}

// The lowest run of n usable clusters where none starts at or after start: those that start there are not tested again.
fn scan_before<const APART: usize>(
    vol: &[u8],
    sys: &Places<'_, APART, 1>,
    start: u32,
    n: u32,
) -> Option<u32>
    requires { (length vol.now ≡ sys.now.y.len) × ((2 ≤ start) × ((start < sys.now.y.count + 2) × ((1 ≤ n) × (run_from (is_usable sys.now.y vol.now sys.now.map.now) (sys.now.y.count + 2) n start ≡ None)))) }
    ensures { result ≡ run_from (is_usable sys.now.y vol.now sys.now.map.now) (sys.now.y.count + 2) n 2 }
{
    let end = start + (sys.y.count + 2 - start).min(n - 1);
    scan(vol, sys, 2, end, n)
}

// The choice of n clusters for a search that starts at start (Rust: `free_run`, `free_list`).
pub fn choose_clusters<const APART: usize>(
    vol: &[u8],
    sys: &Places<'_, APART, 1>,
    start: u32,
    n: u32,
) -> Choice
    requires { (length vol.now ≡ sys.now.y.len) × ((2 ≤ start) × ((start < sys.now.y.count + 2) × (1 ≤ n))) }
    ensures { result ≡ choose (is_usable sys.now.y vol.now sys.now.map.now) sys.now.y.count n start }
{
    if let Some(k) = scan(vol, sys, start, sys.y.count + 2, n) {
        return Choice::Run(k);
    }
    if let Some(k) = scan_before(vol, sys, start, n) {
        return Choice::Run(k);
    }
    if counts_to(vol, sys, u64::from(n)) {
        return Choice::Scattered;
    }
    Choice::TooFew
}

// The first usable cluster from start on, then from 2; there is one.
pub fn first_usable<const APART: usize>(vol: &[u8], sys: &Places<'_, APART, 1>, start: u32) -> u32
    requires { (length vol.now ≡ sys.now.y.len) × ((2 ≤ start) × ((start < sys.now.y.count + 2) × (1 ≤ count (is_usable sys.now.y vol.now sys.now.map.now) 2 sys.now.y.count))) }
    ensures { result ≡ first_usable (is_usable sys.now.y vol.now sys.now.map.now) sys.now.y.count start }
{
    if let Some(k) = metadata::usable::next_usable(vol, sys, start, sys.y.count + 2 - start) {
        return k;
    }
    metadata::usable::next_usable(vol, sys, 2, start - 2).unwrap_or(0)
}
