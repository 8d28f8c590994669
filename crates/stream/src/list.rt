// Listing: the clusters of a record written to a lent list (Rust: `clusters`).
ghost use Rattle.std.specs.Prelude.{◌≡◌, true, ◌*◌, ◌≤◌, ◌<◌, length};
ghost use Rattle.primitives.specs.Splice.{splice};
ghost use Rattle.tables.specs.Lists.{every};
ghost use Rattle.boot.specs.Layout.{in_heap};
ghost use Rattle.boot.specs.Causes.{number};
ghost use Rattle.metadata.specs.Fat.{fat_entry};
ghost use Rattle.stream.specs.Internal.{along};
ghost use Rattle.stream.specs.Listing.{listed_number, listed_list, listing_number, listing_list};

use crate::allocation::Allocation;
use boot::cause::Cause;
use boot::geometry::Geometry;
use boot::system::Places;

// Writes the clusters of a stream to the front of a list.
fn write_clusters<const APART: usize, const WIDE: usize>(
    vol: &[u8],
    sys: &Places<'_, APART, WIDE>,
    a: Allocation,
    list: &mut [u32],
)
    requires { (length vol.now ≡ sys.now.y.len) × ((a.count ≤ length list.old) × (every (in_heap sys.now.y.count) (along (fat_entry sys.now.y vol.now) a.no_fat_chain a.first a.count) ≡ true)) }
    ensures { list.new ≡ splice list.old 0 (along (fat_entry sys.now.y vol.now) a.no_fat_chain a.first a.count) }
{
    let mut k = a.first;
    for place in &mut list[..a.count as usize] {
        *place = k;
        k = crate::walk::next_cluster(vol, sys, a.no_fat_chain, k);
    }
}

// The same once the limits are known to hold: refused where the list is too short, or by the record's clusters.
fn list_clusters<const APART: usize>(
    vol: &[u8],
    sys: &Places<'_, APART, 1>,
    a: Allocation,
    list: &mut [u32],
) -> Result<(), Cause>
    requires { length vol.now ≡ sys.now.y.len }
    ensures { (number result ≡ listed_number sys.now.y vol.now a (length list.old)) × (list.new ≡ listed_list sys.now.y vol.now a list.old) }
{
    if list.len() < a.count as usize {
        return Err(Cause::ShortList);
    }
    crate::walk::stream_cause(vol, sys, a)?;
    write_clusters(vol, sys, a, list);
    Ok(())
}

// Writes the clusters of a record, in stream order, to a lent list.
pub fn clusters(
    vol: &[u8],
    map: &[u8],
    g: Geometry,
    a: Allocation,
    list: &mut [u32],
) -> Result<(), Cause>
    ensures { (number result ≡ listing_number g vol.now map.now a (length list.old)) × (list.new ≡ listing_list g vol.now map.now a list.old) }
{
    let sys = boot::system::admit(g, vol.len(), map)?;
    list_clusters(vol, &sys, a, list)
}
