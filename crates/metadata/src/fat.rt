// Entries of the FAT: read from the active FAT, stored to every FAT.
ghost use Rattle.std.specs.Prelude.{◌≡◌, ◌+◌, ◌<◌, length};
ghost use Rattle.metadata.specs.Fat.{fat_entry, set_fat};

use boot::system::Places;

// Entry k of the active FAT.
pub fn fat_entry<const APART: usize, const WIDE: usize>(
    vol: &[u8],
    sys: &Places<'_, APART, WIDE>,
    k: u32,
) -> u32
    requires { (length vol.now ≡ sys.now.y.len) × (k < sys.now.y.count + 2) }
    ensures { result ≡ fat_entry sys.now.y vol.now k }
{
    primitives::words::u32_at(vol, sys.y.fat + 4 * (k as usize))
}

// Stores v as entry k of every FAT.
pub fn set_fat<const APART: usize, const WIDE: usize>(
    vol: &mut [u8],
    sys: &Places<'_, APART, WIDE>,
    k: u32,
    v: u32,
)
    requires { (length vol.old ≡ sys.now.y.len) × (k < sys.now.y.count + 2) }
    ensures { vol.new ≡ set_fat sys.now.y vol.old k v }
{
    primitives::words::put_u32(vol, sys.y.fat0 + 4 * (k as usize), v);
    if sys.y.two {
        primitives::words::put_u32(vol, sys.y.fat1 + 4 * (k as usize), v);
    }
}
