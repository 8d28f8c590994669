// Remove: a file's entries cleared, then its stream freed (Rust: `remove`).
ghost use Rattle.std.specs.Prelude.{◌≡◌, ◌*◌, ◌≤◌, length, take};
ghost use Rattle.stream.specs.Bytes.{store_at};
ghost use Rattle.entry_set.specs.Put.{cleared};
ghost use Rattle.directory.specs.Directory.{root_record};
ghost use Rattle.directory.specs.Internal.{spot_clusters, Reaches};
ghost use Rattle.file.specs.Outcome.{file_answer};
ghost use Rattle.file.specs.Refresh.{entries_of};
ghost use Rattle.write_remove.specs.Remove.{remove_in, remove};

use boot::cause::Cause;
use boot::geometry::Geometry;
use boot::system::{Places, System};
use directory::spot::Spot;
use file::answer::Carried;

// Clears the InUse bit of each entry of a set, and stores it.
fn unset<const APART: usize, const WIDE: usize>(
    vol: &mut [u8],
    sys: &Places<'_, APART, WIDE>,
    spot: Spot,
    set: &mut [u8; 608],
)
    requires { (length vol.old ≡ sys.now.y.len) × Reaches sys.now.y spot (entries_of set.old) }
    ensures { let s = set.old in (vol.new ≡ store_at sys.now.y vol.old (spot_clusters spot) spot.at (take (32 * entries_of s) (cleared s (entries_of s)))) × (set.new ≡ cleared s (entries_of s)) }
{
    let n = file::refresh::entries_of(set);
    entry_set::set::cleared(set, n);
    write_dir::place::write_set(vol, sys, spot, set, n);
}

// Remove on a volume that keeps the limits: the entries first, then the clusters.
fn remove_in(
    vol: &mut [u8],
    sys: &System<'_>,
    root: u32,
    slot: u32,
    hint: u32,
) -> Result<Carried, Cause>
    requires { length vol.old ≡ sys.now.y.len }
    ensures { let o = remove_in sys.now.y vol.old sys.now.map.now (root_record sys.now.y vol.old root) slot hint in (file_answer hint result ≡ o.answer) × (vol.new ≡ o.volume) }
{
    let mut set = [0u8; 608];
    let f = file::target::open_target(vol, sys, root, slot, 0, hint, &mut set)?;
    let b = f.stream;
    let keep: u32 = 0;
    unset(vol, sys, f.spot, &mut set);
    let part = write_shrink::shrink::kept_part(vol, sys, b.no_fat_chain, b.first, keep);
    write_shrink::shrink::cut_in(vol, sys, b, keep, part);
    Ok(Carried { slot: 0, hint })
}

// Removes a file of the root.
pub fn remove(
    vol: &mut [u8],
    map: &[u8],
    g: Geometry,
    slot: u32,
    hint: u32,
) -> Result<Carried, Cause>
    ensures { let o = remove g vol.old map.now slot hint in (file_answer hint result ≡ o.answer) × (vol.new ≡ o.volume) }
{
    let sys = boot::system::admit(g, vol.len(), map)?;
    remove_in(vol, &sys, g.root_cluster, slot, hint)
}
