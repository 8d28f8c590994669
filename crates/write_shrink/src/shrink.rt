// Shrink: a stream cut to its first clusters, the others freed.
ghost use Rattle.std.specs.Prelude.{◌≡◌, true, ◌+◌, ◌-◌, ◌*◌, ◌≤◌, ◌<◌, length, take, drop};
ghost use Rattle.tables.specs.Lists.{every, last_or, Distinct};
ghost use Rattle.boot.specs.Layout.{in_heap};
ghost use Rattle.metadata.specs.Fat.{fat_entry};
ghost use Rattle.stream.specs.Stream.{number_of, stream_of, clusters_in, system_cause};
ghost use Rattle.stream.specs.Internal.{along};
ghost use Rattle.boot.specs.Causes.{number};
ghost use Rattle.write_alloc.specs.Outcome.{answer_of};
ghost use Rattle.write_shrink.specs.Internal.{kept_part, part_record};
ghost use Rattle.write_shrink.specs.Shrink.{free_all, end_kept, shrink_in, shrink_clusters};

use boot::cause::Cause;
use boot::geometry::Geometry;
use boot::system::{Places, System};
use stream::allocation::Allocation;
use write_alloc::answer::Updated;

// The kept clusters of a stream: the last one (0: none), whether their numbers rise by one, and the cluster after them.
// Kept: 0 is no cluster's number, and where no cluster is kept nothing reads it.
#[derive(Clone, Copy)]
pub struct Kept {
    pub last: u32,
    pub rising: bool,
    pub next: u32,
}

// The first n clusters of a stream.
pub fn kept_part<const APART: usize, const WIDE: usize>(
    vol: &[u8],
    sys: &Places<'_, APART, WIDE>,
    run: bool,
    first: u32,
    n: u32,
) -> Kept
    requires { (length vol.now ≡ sys.now.y.len) × (every (in_heap sys.now.y.count) (along (fat_entry sys.now.y vol.now) run first n) ≡ true) }
    ensures { result ≡ kept_part (fat_entry sys.now.y vol.now) run first n }
{
    if n == 0 {
        return Kept {
            last: 0,
            rising: true,
            next: first,
        };
    }
    let mut last = first;
    let mut next = stream::walk::next_cluster(vol, sys, run, last);
    let mut rising = true;
    for _ in 1..n {
        rising &= next == last + 1;
        last = next;
        next = stream::walk::next_cluster(vol, sys, run, last);
    }
    Kept { last, rising, next }
}

// Makes the last kept cluster of a chain the end.
fn end_kept<const APART: usize, const WIDE: usize>(
    vol: &mut [u8],
    sys: &Places<'_, APART, WIDE>,
    a: Allocation,
    keep: u32,
    last: u32,
)
    requires { (length vol.old ≡ sys.now.y.len) × ((last ≡ last_or 0 (along (fat_entry sys.now.y vol.old) a.no_fat_chain a.first keep)) × (every (in_heap sys.now.y.count) (along (fat_entry sys.now.y vol.old) a.no_fat_chain a.first keep) ≡ true)) }
    ensures { vol.new ≡ end_kept sys.now.y vol.old a (along (fat_entry sys.now.y vol.old) a.no_fat_chain a.first keep) }
{
    if keep != 0 && !a.no_fat_chain {
        metadata::fat::set_fat(vol, sys, last, 0xFFFF_FFFF);
    }
}

// Frees n clusters of a stream: the next one is read before a cluster's FAT entry becomes 0.
fn free_from<const WIDE: usize>(
    vol: &mut [u8],
    sys: &Places<'_, 1, WIDE>,
    run: bool,
    first: u32,
    n: u32,
)
    requires { (length vol.old ≡ sys.now.y.len) × ((every (in_heap sys.now.y.count) (along (fat_entry sys.now.y vol.old) run first n) ≡ true) × Distinct (along (fat_entry sys.now.y vol.old) run first n)) }
    ensures { vol.new ≡ free_all sys.now.y vol.old (along (fat_entry sys.now.y vol.old) run first n) }
{
    let mut k = first;
    for _ in 0..n {
        let next = stream::walk::next_cluster(vol, sys, run, k);
        metadata::fat::set_fat(vol, sys, k, 0);
        metadata::bitmap::mark(vol, sys, k, false);
        k = next;
    }
}

// Cuts a stream that reads to its first clusters, which `part` tells of, and frees the others: what shrink does where nothing refuses.
pub fn cut_in<const WIDE: usize>(
    vol: &mut [u8],
    sys: &Places<'_, 1, WIDE>,
    a: Allocation,
    keep: u32,
    part: Kept,
)
    requires { (length vol.old ≡ sys.now.y.len) × ((number_of (stream_of sys.now.y vol.old a) ≡ 0) × ((keep ≤ a.count) × (part ≡ kept_part (fat_entry sys.now.y vol.old) a.no_fat_chain a.first keep))) }
    ensures { vol.new ≡ free_all sys.now.y (end_kept sys.now.y vol.old a (take keep (clusters_in sys.now.y vol.old a))) (drop keep (clusters_in sys.now.y vol.old a)) }
{
    end_kept(vol, sys, a, keep, part.last);
    free_from(vol, sys, a.no_fat_chain, part.next, a.count - keep);
}

// The record of the kept clusters: empty, or a run where their numbers rise by one.
pub fn kept_record(first: u32, keep: u32, part: Kept) -> Allocation
    ensures { result ≡ part_record first keep part }
{
    if keep == 0 {
        return stream::allocation::empty_record();
    }
    Allocation {
        first,
        last: part.last,
        count: keep,
        no_fat_chain: part.rising,
    }
}

// Refuses to free n clusters of a stream by a system cluster among them, which a walk may have seen that there is not.
fn freed_cause<const APART: usize>(
    vol: &[u8],
    sys: &Places<'_, APART, 1>,
    run: bool,
    first: u32,
    n: u32,
    clear: bool,
) -> Result<(), Cause>
    requires { (length vol.now ≡ sys.now.y.len) × ((every (in_heap sys.now.y.count) (along (fat_entry sys.now.y vol.now) run first n) ≡ true) × ((1 ≤ n) × (clear ≡ true → system_cause sys.now.map.now (along (fat_entry sys.now.y vol.now) run first n) ≡ 0))) }
    ensures { number result ≡ system_cause sys.now.map.now (along (fat_entry sys.now.y vol.now) run first n) }
{
    if clear {
        Ok(())
    } else {
        stream::system::system_cause(vol, sys, run, first, n)
    }
}

// Shrinks a record that is not refused: by the freed clusters, else the cut.
fn shrink_read(
    vol: &mut [u8],
    sys: &System<'_>,
    a: Allocation,
    keep: u32,
    clear: bool,
    hint: u32,
) -> Result<Updated, Cause>
    requires { (length vol.old ≡ sys.now.y.len) × ((keep < a.count) × ((in_heap sys.now.y.count hint ≡ true) × ((number_of (stream_of sys.now.y vol.old a) ≡ 0) × (clear ≡ true → system_cause sys.now.map.now (clusters_in sys.now.y vol.old a) ≡ 0)))) }
    ensures { let o = shrink_in sys.now.y vol.old sys.now.map.now a keep hint in (answer_of a hint result ≡ o.answer) × (vol.new ≡ o.volume) }
{
    let run = a.no_fat_chain;
    let part = kept_part(vol, sys, run, a.first, keep);
    freed_cause(vol, sys, run, part.next, a.count - keep, clear)?;
    cut_in(vol, sys, a, keep, part);
    let allocation = kept_record(a.first, keep, part);
    Ok(Updated { allocation, hint })
}

// The same once the limits are known to hold.
fn shrink_in(
    vol: &mut [u8],
    sys: &System<'_>,
    a: Allocation,
    keep: u32,
    hint: u32,
) -> Result<Updated, Cause>
    requires { length vol.old ≡ sys.now.y.len }
    ensures { let o = shrink_in sys.now.y vol.old sys.now.map.now a keep hint in (answer_of a hint result ≡ o.answer) × (vol.new ≡ o.volume) }
{
    if !boot::layout::in_heap(sys.y.count, hint) {
        return Err(Cause::OutsideHeap);
    }
    if a.count <= keep {
        return Ok(Updated {
            allocation: a,
            hint,
        });
    }
    let tested = stream::walk::stream_test(vol, sys, a);
    tested.outcome?;
    shrink_read(vol, sys, a, keep, tested.clear, hint)
}

// Shrinks a record to its first `keep` clusters (Rust: `shrink_clusters`).
pub fn shrink_clusters(
    vol: &mut [u8],
    map: &[u8],
    g: Geometry,
    a: Allocation,
    keep: u32,
    hint: u32,
) -> Result<Updated, Cause>
    ensures { let o = shrink_clusters g vol.old map.now a keep hint in (answer_of a hint result ≡ o.answer) × (vol.new ≡ o.volume) }
{
    let sys = boot::system::admit(g, vol.len(), map)?;
    shrink_in(vol, &sys, a, keep, hint)
}
