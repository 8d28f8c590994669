// A set stored where it stands in a directory, and clusters added to a directory (Rust: `insert`, `grow`).
ghost use Rattle.std.specs.Prelude.{◌≡◌, true, ◌+◌, ◌-◌, ◌*◌, ◌≤◌, ◌<◌, min, length, take, drop};
ghost use Rattle.boot.specs.Layout.{in_heap};
ghost use Rattle.metadata.specs.Cluster.{put_bytes};
ghost use Rattle.stream.specs.Bytes.{store_at};
ghost use Rattle.directory.specs.Internal.{spot_clusters, Reaches};
ghost use Rattle.write_dir.specs.Internal.{Growable, standing, added_of};
ghost use Rattle.write_dir.specs.Place.{grow_one, grow_by};

use boot::system::{Places, System};
use directory::spot::Spot;
use stream::allocation::Allocation;
use write_alloc::answer::Updated;

// Stores as much of src as cluster k has room for from its byte `at` on, and answers how many bytes.
fn put_part<const APART: usize, const WIDE: usize>(
    vol: &mut [u8],
    sys: &Places<'_, APART, WIDE>,
    k: u32,
    at: usize,
    src: &[u8],
) -> usize
    requires { (length vol.old ≡ sys.now.y.len) × ((at < sys.now.y.size) × (0 < length src.now → in_heap sys.now.y.count k ≡ true)) }
    ensures { (result ≡ min (sys.now.y.size - at) (length src.now)) × (vol.new ≡ put_bytes sys.now.y vol.old k at (take result src.now)) }
{
    if src.is_empty() {
        return 0;
    }
    let stored = src.len().min(sys.y.size - at);
    stream::bytes::put_piece(vol, sys, k, at, &src[..stored]);
    stored
}

// Stores the n entries of a set.
// Kept: a set is 608 bytes whatever n is, as its other functions have it, and n counts entries.
pub fn write_set<const APART: usize, const WIDE: usize>(
    vol: &mut [u8],
    sys: &Places<'_, APART, WIDE>,
    spot: Spot,
    set: &[u8; 608],
    n: usize,
)
    requires { (length vol.old ≡ sys.now.y.len) × Reaches sys.now.y spot n }
    ensures { vol.new ≡ store_at sys.now.y vol.old (spot_clusters spot) spot.at (take (32 * n) set.now) }
{
    let all = 32 * n;
    let one = put_part(vol, sys, spot.first, spot.at, &set[..all]);
    let two = put_part(vol, sys, spot.second, 0, &set[one..all]);
    put_part(vol, sys, spot.third, 0, &set[one + two..all]);
}

// One cluster added, and zeroed.
fn grow(vol: &mut [u8], sys: &System<'_>, dir: Allocation, hint: u32) -> Updated
    requires { (length vol.old ≡ sys.now.y.len) × Growable sys.now.y vol.old sys.now.map.now dir 1 hint }
    ensures { let w = grow_one sys.now.y sys.now.map.now (standing vol.old dir hint) in (result ≡ added_of w) × (vol.new ≡ w.volume) }
{
    let grown = write_extend::extend::grow_in(vol, sys, dir, 1, hint);
    stream::bytes::put_zeros(vol, sys, grown.allocation.last, 0, sys.y.size);
    grown
}

// n clusters added, and zeroed.
pub fn grow_by(vol: &mut [u8], sys: &System<'_>, dir: Allocation, n: u32, hint: u32) -> Updated
    requires { (length vol.old ≡ sys.now.y.len) × Growable sys.now.y vol.old sys.now.map.now dir n hint }
    ensures { let w = grow_by sys.now.y sys.now.map.now n (standing vol.old dir hint) in (result ≡ added_of w) × (vol.new ≡ w.volume) }
{
    let mut w = Updated {
        allocation: dir,
        hint,
    };
    for _ in 0..n {
        w = grow(vol, sys, w.allocation, w.hint);
    }
    w
}
