// System clusters among those of a stream (number 9).
ghost use Rattle.std.specs.Prelude.{◌≡◌, true, ◌+◌, ◌*◌, ◌≤◌, length};
ghost use Rattle.tables.specs.Lists.{every, consec};
ghost use Rattle.boot.specs.Layout.{in_heap};
ghost use Rattle.boot.specs.Causes.{number};
ghost use Rattle.metadata.specs.Fat.{fat_entry};
ghost use Rattle.stream.specs.Internal.{along};
ghost use Rattle.stream.specs.Stream.{system_cause};

use boot::cause::Cause;
use boot::system::Places;

// Refuses the n clusters from first as a run by a system cluster among them. Bytes of the map that are 0 are one test.
fn run_system_cause(map: &[u8], first: u32, n: u32) -> Result<(), Cause>
    requires { (2 ≤ first) × ((first + n ≤ 65536) × (first + n ≤ 8 * length map.now + 2)) }
    ensures { number result ≡ system_cause map.now (consec first n) }
{
    if primitives::bits::none_set(map, first - 2, n) {
        Ok(())
    } else {
        Err(Cause::SystemCluster)
    }
}

// Refuses n clusters of a stream by a system cluster among them.
pub fn system_cause<const APART: usize>(
    vol: &[u8],
    sys: &Places<'_, APART, 1>,
    run: bool,
    first: u32,
    n: u32,
) -> Result<(), Cause>
    requires { (length vol.now ≡ sys.now.y.len) × ((every (in_heap sys.now.y.count) (along (fat_entry sys.now.y vol.now) run first n) ≡ true) × (1 ≤ n)) }
    ensures { number result ≡ system_cause sys.now.map.now (along (fat_entry sys.now.y vol.now) run first n) }
{
    if run {
        return run_system_cause(sys.map, first, n);
    }
    let mut k = first;
    for _ in 0..n {
        if boot::geometry::in_map(sys.map, k) {
            return Err(Cause::SystemCluster);
        }
        k = metadata::fat::fat_entry(vol, sys, k);
    }
    Ok(())
}
