// Extend: clusters added to the end of a stream (Rust: `extend_clusters`).
ghost use Rattle.std.specs.Prelude.{◌≡◌, ◌+◌, ◌-◌, ◌*◌, ◌<◌, ◌≤◌, true, false, length};
ghost use Rattle.tables.specs.Count.{count};
ghost use Rattle.boot.specs.Layout.{in_heap};
ghost use Rattle.metadata.specs.Usable.{is_usable};
ghost use Rattle.stream.specs.Stream.{number_of, stream_of};
ghost use Rattle.choice.specs.Choice.{chosen, begin_of};
ghost use Rattle.boot.specs.Causes.{number, wrap};
ghost use Rattle.write_extend.specs.Extend.{more_cause, in_place, longer_run, link_old, longer_chain, longer, extend_in, extend_clusters};
ghost use Rattle.write_extend.specs.Internal.{Allowed};
ghost use Rattle.write_alloc.specs.Outcome.{success, answer_of};

use boot::cause::Cause;
use boot::geometry::Geometry;
use boot::system::{Places, System};
use choice::choice::Choice;
use stream::allocation::Allocation;
use write_alloc::answer::Updated;

// Refuses n more clusters for a record that has some. Fewer usable clusters than n are too few whatever the free count is: it is asked only
// where the record is refused.
fn more_cause<const APART: usize>(
    vol: &[u8],
    sys: &Places<'_, APART, 1>,
    a: Allocation,
    n: u32,
) -> Result<(), Cause>
    requires { length vol.now ≡ sys.now.y.len }
    ensures { number result ≡ more_cause sys.now.y vol.now sys.now.map.now a n }
{
    if u64::from(sys.y.count) < u64::from(a.count) + u64::from(n) {
        return Err(Cause::NoSpace);
    }
    match stream::walk::stream_cause(vol, sys, a) {
        Ok(()) => {}
        Err(_) if metadata::bitmap::free_count(vol, sys) < n => return Err(Cause::NoSpace),
        Err(cause) => return Err(cause),
    }
    let next = a.last.wrapping_add(1);
    if choice::choice::enough(vol, sys, next, u64::from(n)) {
        Ok(())
    } else {
        Err(Cause::NoSpace)
    }
}

// Whether the next n clusters of a run are usable (Rust: `run_is_free`).
fn in_place<const APART: usize>(
    vol: &[u8],
    sys: &Places<'_, APART, 1>,
    a: Allocation,
    n: u32,
) -> bool
    requires { (length vol.now ≡ sys.now.y.len) × ((1 ≤ a.last) × ((a.last < sys.now.y.count + 2) × (n ≤ sys.now.y.count))) }
    ensures { result ≡ in_place sys.now.y vol.now sys.now.map.now a n }
{
    let next = a.last + 1;
    a.no_fat_chain
        && next + n <= sys.y.count + 2
        && metadata::usable::run_is_free(vol, sys, next, n)
}

// A run that keeps its flag.
fn longer_run<const WIDE: usize>(
    vol: &mut [u8],
    sys: &Places<'_, 1, WIDE>,
    a: Allocation,
    n: u32,
) -> Updated
    requires { (length vol.old ≡ sys.now.y.len) × ((1 ≤ a.last) × ((a.last + 1 + n ≤ sys.now.y.count + 2) × (a.count + n ≤ sys.now.y.count))) }
    ensures { let o = longer_run sys.now.y vol.old a n in (success result ≡ o.answer) × (vol.new ≡ o.volume) }
{
    write_alloc::take::mark_run(vol, sys, a.last + 1, n);
    let allocation = Allocation {
        first: a.first,
        last: a.last + n,
        count: a.count + n,
        no_fat_chain: true,
    };
    let hint = write_alloc::allocate::wrap_cluster(sys.y.count, a.last + n + 1);
    Updated { allocation, hint }
}

// A run's clusters linked in every FAT, the last one as the end. A chain's are linked already.
fn link_old<const APART: usize, const WIDE: usize>(
    vol: &mut [u8],
    sys: &Places<'_, APART, WIDE>,
    a: Allocation,
)
    requires { (length vol.old ≡ sys.now.y.len) × ((a.last < sys.now.y.count + 2) × ((1 ≤ a.count) × (a.no_fat_chain ≡ true → a.first + a.count ≤ sys.now.y.count + 2))) }
    ensures { vol.new ≡ link_old sys.now.y vol.old a }
{
    if a.no_fat_chain {
        write_alloc::take::link_run(vol, sys, a.first, a.count - 1);
        metadata::fat::set_fat(vol, sys, a.last, 0xFFFF_FFFF);
    }
}

// Where a choice begins.
fn begin_of(choice: Choice, start: u32) -> u32
    ensures { result ≡ begin_of choice start }
{
    match choice {
        Choice::Run(k) => k,
        Choice::Scattered | Choice::TooFew => start,
    }
}

// n more clusters linked on, sought from last + 1.
fn longer_chain(vol: &mut [u8], sys: &System<'_>, a: Allocation, n: u32) -> Updated
    requires { (length vol.old ≡ sys.now.y.len) × ((1 ≤ a.count) × ((1 ≤ n) × Allowed sys.now.y vol.old sys.now.map.now a n)) }
    ensures { let o = longer_chain sys.now.y vol.old a (chosen (is_usable sys.now.y vol.old sys.now.map.now) sys.now.y.count n (wrap sys.now.y.count (a.last + 1))) in (success result ≡ o.answer) × (vol.new ≡ o.volume) }
{
    let start = write_alloc::allocate::wrap_cluster(sys.y.count, a.last + 1);
    let choice = choice::choice::choose_clusters(vol, sys, start, n);
    let from = begin_of(choice, start);
    link_old(vol, sys, a);
    let last = write_alloc::allocate::take_chain(vol, sys, from, n, a.last);
    let allocation = Allocation {
        first: a.first,
        last,
        count: a.count + n,
        no_fat_chain: false,
    };
    let hint = write_alloc::allocate::wrap_cluster(sys.y.count, last + 1);
    Updated { allocation, hint }
}

// n more clusters for a record that has some.
fn longer_stream(vol: &mut [u8], sys: &System<'_>, a: Allocation, n: u32) -> Updated
    requires { (length vol.old ≡ sys.now.y.len) × ((1 ≤ a.count) × ((1 ≤ n) × Allowed sys.now.y vol.old sys.now.map.now a n)) }
    ensures { let o = longer sys.now.y vol.old sys.now.map.now a n in (success result ≡ o.answer) × (vol.new ≡ o.volume) }
{
    if in_place(vol, sys, a, n) {
        longer_run(vol, sys, a, n)
    } else {
        longer_chain(vol, sys, a, n)
    }
}

// Extend on a volume that keeps the limits. An empty record is an allocation without near.
fn extend_in(
    vol: &mut [u8],
    sys: &System<'_>,
    a: Allocation,
    n: u32,
    hint: u32,
) -> Result<Updated, Cause>
    requires { length vol.old ≡ sys.now.y.len }
    ensures { let o = extend_in sys.now.y vol.old sys.now.map.now a n hint in (answer_of a hint result ≡ o.answer) × (vol.new ≡ o.volume) }
{
    if !boot::layout::in_heap(sys.y.count, hint) {
        return Err(Cause::OutsideHeap);
    }
    if n == 0 {
        return Ok(Updated {
            allocation: a,
            hint,
        });
    }
    if a.count == 0 {
        return write_alloc::allocate::allocate_in(vol, sys, n, None, hint);
    }
    more_cause(vol, sys, a, n)?;
    Ok(longer_stream(vol, sys, a, n))
}

// n more clusters for a stream whose record is known to read, n of them known to be usable: what extend does where nothing refuses.
pub fn grow_in(vol: &mut [u8], sys: &System<'_>, a: Allocation, n: u32, hint: u32) -> Updated
    requires { (length vol.old ≡ sys.now.y.len) × ((in_heap sys.now.y.count hint ≡ true) × ((number_of (stream_of sys.now.y vol.old a) ≡ 0) × (n ≤ count (is_usable sys.now.y vol.old sys.now.map.now) 2 sys.now.y.count))) }
    ensures { let o = extend_in sys.now.y vol.old sys.now.map.now a n hint in (success result ≡ o.answer) × (vol.new ≡ o.volume) }
{
    if n == 0 {
        return Updated {
            allocation: a,
            hint,
        };
    }
    if a.count == 0 {
        return write_alloc::allocate::new_stream(vol, sys, n, hint).unwrap();
    }
    longer_stream(vol, sys, a, n)
}

// Adds n clusters to the end of a stream.
pub fn extend_clusters(
    vol: &mut [u8],
    map: &[u8],
    g: Geometry,
    a: Allocation,
    n: u32,
    hint: u32,
) -> Result<Updated, Cause>
    ensures { let o = extend_clusters g vol.old map.now a n hint in (answer_of a hint result ≡ o.answer) × (vol.new ≡ o.volume) }
{
    let sys = boot::system::admit(g, vol.len(), map)?;
    extend_in(vol, &sys, a, n, hint)
}
