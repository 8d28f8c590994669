// The free count, a call of its own (Rust: `free_clusters`).
ghost use Rattle.std.specs.Prelude.{◌≡◌};
ghost use Rattle.metadata.specs.Free.{free_answer, free_clusters};

use boot::cause::Cause;
use boot::geometry::Geometry;

// How many clusters the active FAT's bitmap leaves unmarked.
pub fn free_clusters(vol: &[u8], map: &[u8], g: Geometry) -> Result<u32, Cause>
    ensures { free_answer result ≡ free_clusters g vol.now map.now }
{
    let sys = boot::system::admit(g, vol.len(), map)?;
    Ok(crate::bitmap::free_count(vol, &sys))
}
