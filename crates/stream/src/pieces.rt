// Pieces of consecutive clusters.
ghost use Rattle.std.specs.Prelude.{◌≡◌, true, false, ◌+◌, ◌≤◌, ◌<◌, length};
ghost use Rattle.tables.specs.Lists.{every};
ghost use Rattle.boot.specs.Layout.{in_heap};
ghost use Rattle.metadata.specs.Fat.{fat_entry};
ghost use Rattle.stream.specs.Internal.{along, four_follow};
ghost use Rattle.stream.specs.Pieces.{following, leading};

use boot::system::Places;

// How many of the n clusters of a chain that come after k follow it in the heap, one test for each entry.
fn following_each<const APART: usize, const WIDE: usize>(
    vol: &[u8],
    sys: &Places<'_, APART, WIDE>,
    k: u32,
    n: u32,
) -> u32
    requires { (length vol.now ≡ sys.now.y.len) × (every (in_heap sys.now.y.count) (along (fat_entry sys.now.y vol.now) false k (n + 1)) ≡ true) }
    ensures { (result ≡ following k (along (fat_entry sys.now.y vol.now) false (fat_entry sys.now.y vol.now k) n)) × (result ≤ n) }
{
    for i in 0..n {
        let last = k + i;
        if metadata::fat::fat_entry(vol, sys, last) != last + 1 {
            return i;
        }
    }
    n
}

// Whether each of the four FAT entries from k's on names the next number. With no way out, the compiler can compare them at once.
fn four_follow<const APART: usize, const WIDE: usize>(
    vol: &[u8],
    sys: &Places<'_, APART, WIDE>,
    k: u32,
) -> bool
    requires { (length vol.now ≡ sys.now.y.len) × (k + 3 < sys.now.y.count + 2) }
    ensures { result ≡ four_follow (fat_entry sys.now.y vol.now) k }
{
    let a = metadata::fat::fat_entry(vol, sys, k) == k + 1;
    let b = metadata::fat::fat_entry(vol, sys, k + 1) == k + 2;
    let c = metadata::fat::fat_entry(vol, sys, k + 2) == k + 3;
    let d = metadata::fat::fat_entry(vol, sys, k + 3) == k + 4;
    (a & b) & (c & d)
}

// The same, four entries at a time as long as they lie in the FAT and all of them name the next number.
fn following<const APART: usize, const WIDE: usize>(
    vol: &[u8],
    sys: &Places<'_, APART, WIDE>,
    k: u32,
    n: u32,
) -> u32
    requires { (length vol.now ≡ sys.now.y.len) × (every (in_heap sys.now.y.count) (along (fat_entry sys.now.y vol.now) false k (n + 1)) ≡ true) }
    ensures { (result ≡ following k (along (fat_entry sys.now.y vol.now) false (fat_entry sys.now.y vol.now k) n)) × (result ≤ n) }
{
    let mut done = 0;
    // Kept: a step is four entries, and their numbers end it as well as their count.
    while 4 <= n - done && k + done + 1 < sys.y.count && four_follow(vol, sys, k + done) {
        done += 4;
    }
    done + following_each(vol, sys, k + done, n - done)
}

// How many of the n clusters of a stream from k on, k included, stand one behind the other in the heap: all of a run's; a chain's as
// long as the FAT names the next number.
pub fn leading<const APART: usize, const WIDE: usize>(
    vol: &[u8],
    sys: &Places<'_, APART, WIDE>,
    run: bool,
    k: u32,
    n: u32,
) -> u32
    requires { (length vol.now ≡ sys.now.y.len) × ((every (in_heap sys.now.y.count) (along (fat_entry sys.now.y vol.now) run k n) ≡ true) × (1 ≤ n)) }
    ensures { result ≡ leading (along (fat_entry sys.now.y vol.now) run k n) }
{
    if run {
        return n;
    }
    1 + following(vol, sys, k, n - 1)
}
