// Reading a file back: the number alone, and the part alone (02, 2027-01).
ghost use Rattle.std.specs.Prelude.{◌≡◌, eqb, length};
ghost use Rattle.tables.specs.Lists.{every};
ghost use Rattle.std.specs.Result.{result_unwrap_or};
ghost use Rattle.boot.specs.Causes.{number};
ghost use Rattle.directory.specs.Directory.{root_record};
ghost use Rattle.read_file.specs.Part.{no_part, part_bytes, part_place};
ghost use Rattle.read_file.specs.Read.{zero_cause, read_cause, read_in, read_number, read_part};

use crate::part::Part;
use boot::cause::Cause;
use boot::geometry::Geometry;
use boot::system::System;

// Whether all bytes of a slice are 0. With no way out on the way, the compiler compares 16 bytes at a time.
fn all_zero(zeros: &[u8]) -> bool
    ensures { result ≡ every (λ b. eqb b 0) zeros.now }
{
    zeros.iter().fold(true, |all, b| all & (*b == 0))
}

// Refuses a zero slice that is empty or holds another byte.
fn zero_cause(zeros: &[u8]) -> Result<(), Cause>
    ensures { number result ≡ zero_cause zeros.now }
{
    if !zeros.is_empty() && all_zero(zeros) {
        return Ok(());
    }
    Err(Cause::BadZeros)
}

// What refuses a read once the limits are known to hold. It takes no offset, so that none can change it.
fn number_in(vol: &[u8], sys: &System<'_>, root: u32, zeros: &[u8], slot: u32) -> Result<(), Cause>
    requires { length vol.now ≡ sys.now.y.len }
    ensures { number result ≡ read_cause sys.now.y vol.now sys.now.map.now (root_record sys.now.y vol.now root) zeros.now slot }
{
    zero_cause(zeros)?;
    let mut set = [0u8; 608];
    directory::open_file::open_in_root(vol, sys, root, slot, 0, &mut set)?;
    Ok(())
}

// The part once the limits are known to hold. The walk that tests the file's chain notes the cluster of the offset.
fn part_in(
    vol: &[u8],
    sys: &System<'_>,
    root: u32,
    zeros: &[u8],
    slot: u32,
    offset: u64,
) -> Result<Part, Cause>
    requires { length vol.now ≡ sys.now.y.len }
    ensures { (number result ≡ read_cause sys.now.y vol.now sys.now.map.now (root_record sys.now.y vol.now root) zeros.now slot) × (result_unwrap_or result no_part ≡ read_in sys.now.y vol.now sys.now.map.now (root_record sys.now.y vol.now root) zeros.now slot offset) }
{
    zero_cause(zeros)?;
    let mut set = [0u8; 608];
    let f = directory::open_file::open_in_root(vol, sys, root, slot, offset, &mut set)?;
    let k = f.place.cluster;
    Ok(crate::part::file_part(vol, sys, f.stream, k, &set, zeros.len(), offset))
}

// The same behind the limits.
fn find_part(
    vol: &[u8],
    map: &[u8],
    g: Geometry,
    zeros: &[u8],
    slot: u32,
    offset: u64,
) -> Result<Part, Cause>
    ensures { (number result ≡ read_number g vol.now map.now zeros.now slot) × (result_unwrap_or result no_part ≡ read_part g vol.now map.now zeros.now slot offset) }
{
    let sys = boot::system::admit(g, vol.len(), map)?;
    part_in(vol, &sys, g.root_cluster, zeros, slot, offset)
}

// What refuses a read of the file at a slot of the root.
pub fn read_number(
    vol: &[u8],
    map: &[u8],
    g: Geometry,
    zeros: &[u8],
    slot: u32,
) -> Result<(), Cause>
    ensures { number result ≡ read_number g vol.now map.now zeros.now slot }
{
    let sys = boot::system::admit(g, vol.len(), map)?;
    number_in(vol, &sys, g.root_cluster, zeros, slot)
}

// Where the bytes from an offset on of the file at a slot of the root lie, as numbers; refused, an empty part.
pub fn read_part(vol: &[u8], map: &[u8], g: Geometry, zeros: &[u8], slot: u32, offset: u64) -> Part
    ensures { result ≡ read_part g vol.now map.now zeros.now slot offset }
{
    find_part(vol, map, g, zeros, slot, offset).unwrap_or(crate::part::no_part())
}

// The bytes from an offset on of the file at a slot of the root, lent and not copied: as many as lie together. Refused, none.
pub fn read<'a>(
    vol: &'a [u8],
    map: &[u8],
    g: Geometry,
    zeros: &'a [u8],
    slot: u32,
    offset: u64,
) -> &'a [u8]
    ensures { let p = read_part g vol.now map.now zeros.now slot offset in (result.now ≡ part_bytes vol.now zeros.now p) × (result.ref_ptr ≡ part_place vol.entry.ref_ptr zeros.entry.ref_ptr p) }
{
    let part = read_part(vol, map, g, zeros, slot, offset);
    crate::part::lend(vol, zeros, part)
}
