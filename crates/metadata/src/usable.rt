// Which clusters may be taken: unmarked, not in the system map and not bad.
ghost use Rattle.std.specs.Prelude.{◌≡◌, ◌+◌, ◌*◌, ◌≤◌, ◌<◌, length, MatchOption};
ghost use Rattle.metadata.specs.Fat.{fat_entry};
ghost use Rattle.metadata.specs.Internal.{entry_of, first_bad, none_refused};
ghost use Rattle.search.specs.Search.{all_from, fewest};
ghost use Rattle.metadata.specs.Usable.{is_free, is_usable};

use boot::system::Places;

// The entry of a bad cluster.
const BAD: u32 = 0xFFFF_FFF7;

// The first of the n entries from first that is bad. It sees only a FAT's part of the volume.
fn first_bad(fat: &[u8], first: u32, n: u32) -> Option<u32>
    requires { (4 * (first + n) ≤ length fat.now) × (first + n ≤ 65536) }
    ensures { result ≡ first_bad (entry_of fat.now) first n }
{
    (first..first + n).find(|k| primitives::words::u32_at(fat, 4 * (*k as usize)) == BAD)
}

// The first of the n clusters from first that is bad in the active FAT. The FAT begins mid-volume; that part is handed on.
fn bad_in<const APART: usize, const WIDE: usize>(
    vol: &[u8],
    sys: &Places<'_, APART, WIDE>,
    first: u32,
    n: u32,
) -> Option<u32>
    requires { (length vol.now ≡ sys.now.y.len) × (first + n ≤ sys.now.y.count + 2) }
    ensures { result ≡ first_bad (fat_entry sys.now.y vol.now) first n }
{
    let a = sys.y.fat;
    let e = a + 4 * (sys.y.count as usize + 2);
    first_bad(&vol[a..e], first, n)
}

// Whether cluster k is unmarked and not in the system map.
#[tactic(auto, unfolding(crate::specs::Usable::is_free))]
fn is_free<const APART: usize>(vol: &[u8], sys: &Places<'_, APART, 1>, k: u32) -> bool
    requires { (length vol.now ≡ sys.now.y.len) × ((2 ≤ k) × (k < sys.now.y.count + 2)) }
    ensures { result ≡ is_free sys.now.y vol.now sys.now.map.now k }
{
    !crate::bitmap::allocated(vol, sys, k) && !boot::geometry::in_map(sys.map, k)
}

// Whether cluster k may be taken.
#[tactic(auto, unfolding(crate::specs::Usable::is_usable))]
pub fn usable<const APART: usize>(vol: &[u8], sys: &Places<'_, APART, 1>, k: u32) -> bool
    requires { (length vol.now ≡ sys.now.y.len) × ((2 ≤ k) × (k < sys.now.y.count + 2)) }
    ensures { result ≡ is_usable sys.now.y vol.now sys.now.map.now k }
{
    is_free(vol, sys, k) && crate::fat::fat_entry(vol, sys, k) != BAD
}

// The first of the n clusters from k that may be taken.
// Inlined: out of line, a heap of single free clusters took half as long again.
#[inline(always)]
pub fn next_usable<const APART: usize>(
    vol: &[u8],
    sys: &Places<'_, APART, 1>,
    k: u32,
    n: u32,
) -> Option<u32>
    requires { (length vol.now ≡ sys.now.y.len) × ((2 ≤ k) × (k + n ≤ sys.now.y.count + 2)) }
    ensures { MatchOption result (fewest (is_usable sys.now.y vol.now sys.now.map.now) n k ≡ k + n) (λ j. (j ≡ fewest (is_usable sys.now.y vol.now sys.now.map.now) n k) × ((k ≤ j) × (j < k + n))) }
{
    let end = k + n;
    let mut at = k;
    // Kept: a step goes past the marked clusters, as many as there are.
    while at < end {
        let free = crate::bitmap::first_unmarked(vol, sys, at, end - at);
        if free == end {
            return None;
        }
        if usable(vol, sys, free) {
            return Some(free);
        }
        at = free + 1;
    }
    None
}

// Whether none of the n clusters from first is in the system map or bad.
fn none_refused<const APART: usize>(
    vol: &[u8],
    sys: &Places<'_, APART, 1>,
    first: u32,
    n: u32,
) -> bool
    requires { (length vol.now ≡ sys.now.y.len) × ((2 ≤ first) × (first + n ≤ sys.now.y.count + 2)) }
    ensures { result ≡ none_refused sys.now.y vol.now sys.now.map.now first n }
{
    primitives::bits::none_set(sys.map, first - 2, n) && bad_in(vol, sys, first, n).is_none()
}

// Whether the n clusters from first are all usable (Rust: `run_is_free`): the marks and the map by the byte, then the FAT's entries.
pub fn run_is_free<const APART: usize>(
    vol: &[u8],
    sys: &Places<'_, APART, 1>,
    first: u32,
    n: u32,
) -> bool
    requires { (length vol.now ≡ sys.now.y.len) × ((2 ≤ first) × (first + n ≤ sys.now.y.count + 2)) }
    ensures { result ≡ all_from (is_usable sys.now.y vol.now sys.now.map.now) first n }
{
    crate::bitmap::none_marked(vol, sys, first, n) && none_refused(vol, sys, first, n)
}
