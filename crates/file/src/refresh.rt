// The entry set of a file stored anew, and the clusters that a new length needs.
ghost use Rattle.std.specs.Prelude.{◌≡◌, ◌+◌, ◌-◌, ◌*◌, ◌<◌, ◌≤◌, true, length, take, replicate};
ghost use Rattle.boot.specs.Layout.{in_heap};
ghost use Rattle.stream.specs.Stream.{number_of, stream_of, clusters_in};
ghost use Rattle.stream.specs.Bytes.{store_at};
ghost use Rattle.stream.specs.Internal.{Known};
ghost use Rattle.boot.specs.Causes.{number};
ghost use Rattle.write_alloc.specs.Outcome.{success};
ghost use Rattle.write_extend.specs.Extend.{extend_in};
ghost use Rattle.directory.specs.Internal.{spot_clusters, Reaches};
ghost use Rattle.file.specs.Refresh.{entries_of, recorded, missing, length_cause};
ghost use Rattle.file.specs.Internal.{grown_place, zeroed_place, near_of};

use boot::cause::Cause;
use boot::system::{Places, System};
use directory::spot::Spot;
use entry_set::stamp::Stamp;
use stream::allocation::Allocation;
use stream::bytes::Place;
use write_alloc::answer::Updated;

// The entries of a set.
pub fn entries_of(set: &[u8; 608]) -> usize
    ensures { (result ≡ entries_of set.now) × (result ≤ 256) }
{
    1 + entry_set::entry::secondary_count(set)
}

// Where usable clusters for a stream are looked for first: behind its last one, or from the hint on where it is empty.
fn near_of(b: Allocation, hint: u32) -> u32
    ensures { result ≡ near_of b hint }
{
    if b.count == 0 {
        return hint;
    }
    b.last.wrapping_add(1)
}

// Refuses a length for which more clusters are missing than are usable. They are searched only where some are missing.
pub fn length_cause<const APART: usize>(
    vol: &[u8],
    sys: &Places<'_, APART, 1>,
    b: Allocation,
    len: u64,
    hint: u32,
) -> Result<(), Cause>
    requires { length vol.now ≡ sys.now.y.len }
    ensures { number result ≡ length_cause sys.now.y vol.now sys.now.map.now b len }
{
    let needed = entry_set::entry::clusters_for(sys.y.size, len);
    let there = u64::from(b.count);
    if needed <= there {
        return Ok(());
    }
    let near = near_of(b, hint);
    if choice::choice::enough(vol, sys, near, needed - there) {
        return Ok(());
    }
    Err(Cause::NoSpace)
}

// The clusters that a stream must add for a length.
fn missing<const APART: usize, const WIDE: usize>(
    sys: &Places<'_, APART, WIDE>,
    b: Allocation,
    len: u64,
) -> u32
    requires { missing sys.now.y b len ≤ 32768 }
    ensures { result ≡ missing sys.now.y b len }
{
    entry_set::entry::clusters_for(sys.y.size, len).saturating_sub(u64::from(b.count)) as u32
}

// Fills a stream with zeros from one byte up to another; nothing where that is not above it (Rust: `zero_range`). Answers the place that
// the zeros reached, or the known one where there are none.
pub fn zero_range<const WIDE: usize>(
    vol: &mut [u8],
    sys: &Places<'_, 1, WIDE>,
    b: Allocation,
    known: Place,
    from: u64,
    to: u64,
) -> Place
    requires { (length vol.old ≡ sys.now.y.len) × ((number_of (stream_of sys.now.y vol.old b) ≡ 0) × ((to ≤ b.count * sys.now.y.size) × Known sys.now.y vol.old b known from)) }
    ensures { (vol.new ≡ store_at sys.now.y vol.old (clusters_in sys.now.y vol.old b) from (replicate (to - from) 0)) × (result ≡ zeroed_place sys.now.y vol.old b known from to) }
{
    if from < to {
        return stream::bytes::fill(vol, sys, b, known, from as usize, (to - from) as usize);
    }
    known
}

// A place of stream b that is known, in the stream a that b grew to: the same, or a's first cluster where b was empty.
pub fn grown_place(b: Allocation, known: Place, a: Allocation) -> Place
    ensures { result ≡ grown_place b known a }
{
    if b.count == 0 {
        return Place {
            cluster: a.first,
            steps: 0,
        };
    }
    known
}

// Adds the clusters that a stream misses for a length; then it reads, and holds the length.
pub fn grow_to(vol: &mut [u8], sys: &System<'_>, b: Allocation, len: u64, hint: u32) -> Updated
    requires { (length vol.old ≡ sys.now.y.len) × ((in_heap sys.now.y.count hint ≡ true) × ((number_of (stream_of sys.now.y vol.old b) ≡ 0) × (length_cause sys.now.y vol.old sys.now.map.now b len ≡ 0))) }
    ensures { let o = extend_in sys.now.y vol.old sys.now.map.now b (missing sys.now.y b len) hint in (success result ≡ o.answer) × ((vol.new ≡ o.volume) × ((number_of (stream_of sys.now.y vol.new result.allocation) ≡ 0) × (len ≤ result.allocation.count * sys.now.y.size))) }
{
    let n = missing(sys, b, len);
    write_extend::extend::grow_in(vol, sys, b, n, hint)
}

// Stores a set anew: its stream, both lengths, the stamp, the Archive attribute and the checksum (Rust: `record`).
pub fn record_set<const APART: usize, const WIDE: usize>(
    vol: &mut [u8],
    sys: &Places<'_, APART, WIDE>,
    spot: Spot,
    set: &mut [u8; 608],
    b: Allocation,
    valid: u64,
    len: u64,
    t: Stamp,
)
    requires { (length vol.old ≡ sys.now.y.len) × Reaches sys.now.y spot (entries_of set.old) }
    ensures { let s = set.old in (vol.new ≡ store_at sys.now.y vol.old (spot_clusters spot) spot.at (take (32 * entries_of s) (recorded s b valid len t))) × (set.new ≡ recorded s b valid len t) }
{
    let n = entries_of(set);
    entry_set::set::refreshed(set, n, b.first, b.no_fat_chain, valid, len, t);
    write_dir::place::write_set(vol, sys, spot, set, n);
}
