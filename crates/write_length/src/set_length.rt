// Set length: a file cut, refreshed or made longer (Rust: `set_length`).
ghost use Rattle.std.specs.Prelude.{◌≡◌, true, ◌-◌, ◌*◌, ◌≤◌, ◌<◌, length, replicate};
ghost use Rattle.boot.specs.Layout.{in_heap};
ghost use Rattle.metadata.specs.Fat.{fat_entry};
ghost use Rattle.stream.specs.Stream.{number_of, stream_of, clusters_in};
ghost use Rattle.stream.specs.Bytes.{store_at};
ghost use Rattle.stream.specs.Internal.{Known};
ghost use Rattle.entry_set.specs.Fields.{clusters_for};
ghost use Rattle.write_extend.specs.Extend.{extend_in};
ghost use Rattle.write_shrink.specs.Internal.{kept_part};
ghost use Rattle.directory.specs.Directory.{root_record};
ghost use Rattle.write_alloc.specs.Outcome.{success};
ghost use Rattle.file.specs.Outcome.{file_answer};
ghost use Rattle.file.specs.Refresh.{missing, length_cause};
ghost use Rattle.write_length.specs.Internal.{cut_plan, cut_to, lengthened};
ghost use Rattle.write_length.specs.SetLength.{zero_end, set_length_in, set_length};

use boot::cause::Cause;
use boot::geometry::Geometry;
use boot::system::{Places, System};
use entry_set::stamp::Stamp;
use file::answer::Carried;
use stream::allocation::Allocation;
use stream::bytes::Place;
use write_alloc::answer::Updated;
use write_shrink::shrink::Kept;

// What a cut keeps: how many clusters, what a walk of them tells, and their record.
#[derive(Clone, Copy)]
struct Cut {
    keep: u32,
    part: Kept,
    kept: Allocation,
}

// Where the zeros of a longer file end.
fn zero_end<const APART: usize, const WIDE: usize>(
    sys: &Places<'_, APART, WIDE>,
    valid: u64,
    len: u64,
) -> u64
    requires { (valid ≤ len) × (valid ≤ 1073741824) }
    ensures { result ≡ zero_end sys.now.y.size valid len }
{
    valid.next_multiple_of(sys.y.size as u64).min(len)
}

// A stream cut to a length: the clusters kept, what a walk of them tells, and their record, a run where their numbers rise by one.
fn cut_plan<const WIDE: usize>(
    vol: &[u8],
    sys: &Places<'_, 1, WIDE>,
    b: Allocation,
    len: u64,
) -> Cut
    requires { (length vol.now ≡ sys.now.y.len) × ((number_of (stream_of sys.now.y vol.now b) ≡ 0) × (clusters_for sys.now.y.size len ≤ b.count)) }
    ensures { result ≡ cut_plan sys.now.y vol.now b len }
{
    let keep = entry_set::entry::clusters_for(sys.y.size, len) as u32;
    let part = write_shrink::shrink::kept_part(vol, sys, b.no_fat_chain, b.first, keep);
    let kept = write_shrink::shrink::kept_record(b.first, keep, part);
    Cut { keep, part, kept }
}

// Frees the clusters of a stream that are not kept, where there are any.
fn cut_to<const WIDE: usize>(
    vol: &mut [u8],
    sys: &Places<'_, 1, WIDE>,
    b: Allocation,
    keep: u32,
    part: Kept,
)
    requires { (length vol.old ≡ sys.now.y.len) × ((number_of (stream_of sys.now.y vol.old b) ≡ 0) × (part ≡ kept_part (fat_entry sys.now.y vol.old) b.no_fat_chain b.first keep)) }
    ensures { vol.new ≡ cut_to sys.now.y vol.old b keep }
{
    if keep < b.count {
        write_shrink::shrink::cut_in(vol, sys, b, keep, part);
    }
}

// Grows a stream to a length, with zeros from valid to the end of its cluster, or to the length, from a place on that is known before it
// grows.
fn grow_zeroed(
    vol: &mut [u8],
    sys: &System<'_>,
    b: Allocation,
    known: Place,
    len: u64,
    valid: u64,
    hint: u32,
) -> Updated
    requires { (length vol.old ≡ sys.now.y.len) × ((in_heap sys.now.y.count hint ≡ true) × ((number_of (stream_of sys.now.y vol.old b) ≡ 0) × ((length_cause sys.now.y vol.old sys.now.map.now b len ≡ 0) × ((valid ≤ len) × ((valid ≤ 1073741824) × Known sys.now.y vol.old b known valid))))) }
    ensures { let o = extend_in sys.now.y vol.old sys.now.map.now b (missing sys.now.y b len) hint in (success result ≡ o.answer) × (vol.new ≡ store_at sys.now.y o.volume (clusters_in sys.now.y o.volume result.allocation) valid (replicate (zero_end sys.now.y.size valid len - valid) 0)) }
{
    let to = zero_end(sys, valid, len);
    let r = file::refresh::grow_to(vol, sys, b, len, hint);
    let place = file::refresh::grown_place(b, known, r.allocation);
    file::refresh::zero_range(vol, sys, r.allocation, place, valid, to);
    r
}

// Makes a stream of length old ready for a length that is not below it; an equal length leaves it as it is.
fn lengthen(
    vol: &mut [u8],
    sys: &System<'_>,
    b: Allocation,
    known: Place,
    old: u64,
    len: u64,
    valid: u64,
    hint: u32,
) -> Updated
    requires { (length vol.old ≡ sys.now.y.len) × ((in_heap sys.now.y.count hint ≡ true) × ((number_of (stream_of sys.now.y vol.old b) ≡ 0) × ((length_cause sys.now.y vol.old sys.now.map.now b len ≡ 0) × ((valid ≤ len) × ((valid ≤ 1073741824) × Known sys.now.y vol.old b known valid))))) }
    ensures { let o = lengthened sys.now.y vol.old sys.now.map.now b old len valid hint in (success result ≡ o.answer) × (vol.new ≡ o.volume) }
{
    if len == old {
        return Updated {
            allocation: b,
            hint,
        };
    }
    grow_zeroed(vol, sys, b, known, len, valid, hint)
}

// Set length on a volume that keeps the limits: shorter, the entry set first and then the clusters freed; else the stream first.
fn set_length_in(
    vol: &mut [u8],
    sys: &System<'_>,
    root: u32,
    slot: u32,
    len: u64,
    t: Stamp,
    hint: u32,
) -> Result<Carried, Cause>
    requires { length vol.old ≡ sys.now.y.len }
    ensures { let o = set_length_in sys.now.y vol.old sys.now.map.now (root_record sys.now.y vol.old root) slot len t hint in (file_answer hint result ≡ o.answer) × (vol.new ≡ o.volume) }
{
    let mut set = [0u8; 608];
    let f = file::target::open_target(vol, sys, root, slot, len, hint, &mut set)?;
    let b = f.stream;
    file::refresh::length_cause(vol, sys, b, len, hint)?;
    let valid = entry_set::entry::valid_length(&set);
    let old = entry_set::entry::data_length(&set);
    if len < old {
        let c = cut_plan(vol, sys, b, len);
        let capped = valid.min(len);
        file::refresh::record_set(vol, sys, f.spot, &mut set, c.kept, capped, len, t);
        cut_to(vol, sys, b, c.keep, c.part);
        return Ok(Carried { slot: 0, hint });
    }
    let r = lengthen(vol, sys, b, f.place, old, len, valid, hint);
    file::refresh::record_set(vol, sys, f.spot, &mut set, r.allocation, valid, len, t);
    Ok(Carried {
        slot: 0,
        hint: r.hint,
    })
}

// Sets the length of a file of the root.
pub fn set_length(
    vol: &mut [u8],
    map: &[u8],
    g: Geometry,
    slot: u32,
    len: u64,
    t: Stamp,
    hint: u32,
) -> Result<Carried, Cause>
    ensures { let o = set_length g vol.old map.now slot len t hint in (file_answer hint result ≡ o.answer) × (vol.new ≡ o.volume) }
{
    let sys = boot::system::admit(g, vol.len(), map)?;
    set_length_in(vol, &sys, g.root_cluster, slot, len, t, hint)
}
