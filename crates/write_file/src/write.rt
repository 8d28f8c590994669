// Write: data stored in a file at an offset (Rust: `write_into`).
ghost use Rattle.std.specs.Prelude.{◌≡◌, ◌+◌, ◌-◌, ◌*◌, ◌<◌, ◌≤◌, min, true, length};
ghost use Rattle.boot.specs.Layout.{in_heap};
ghost use Rattle.stream.specs.Stream.{number_of, stream_of, clusters_in};
ghost use Rattle.stream.specs.Internal.{Known};
ghost use Rattle.write_extend.specs.Extend.{extend_in};
ghost use Rattle.directory.specs.Directory.{root_record};
ghost use Rattle.file.specs.Refresh.{missing, length_cause};
ghost use Rattle.write_alloc.specs.Outcome.{success};
ghost use Rattle.file.specs.Outcome.{file_answer};
ghost use Rattle.write_file.specs.Internal.{data_answer, data_stored};
ghost use Rattle.write_file.specs.Write.{with_data, write_in, write_into};

use boot::cause::Cause;
use boot::geometry::Geometry;
use boot::system::{Places, System};
use entry_set::stamp::Stamp;
use file::answer::Carried;
use stream::allocation::Allocation;
use stream::bytes::Place;
use write_alloc::answer::Updated;

// What storing data makes of a file but its set: the stream, both lengths and the hint.
#[derive(Clone, Copy)]
struct Stored {
    allocation: Allocation,
    valid: u64,
    len: u64,
    hint: u32,
}

// Puts data into a stream: zeros from valid up to the offset where it passes valid, from the known place on, then the data, from the place
// that the zeros reached on.
fn put_data<const WIDE: usize>(
    vol: &mut [u8],
    sys: &Places<'_, 1, WIDE>,
    b: Allocation,
    known: Place,
    valid: u64,
    offset: u64,
    src: &[u8],
)
    requires { (length vol.old ≡ sys.now.y.len) × ((number_of (stream_of sys.now.y vol.old b) ≡ 0) × ((offset + length src.now ≤ b.count * sys.now.y.size) × (Known sys.now.y vol.old b known (min valid offset) × (1 ≤ length src.now)))) }
    ensures { vol.new ≡ with_data sys.now.y vol.old (clusters_in sys.now.y vol.old b) valid offset src.now }
{
    let reached = file::refresh::zero_range(vol, sys, b, known, valid, offset);
    stream::bytes::store(vol, sys, b, reached, offset as usize, src);
}

// Grows a stream to a length, and puts data into it, from a place on that is known before it grows.
fn put_grown(
    vol: &mut [u8],
    sys: &System<'_>,
    b: Allocation,
    known: Place,
    len: u64,
    valid: u64,
    offset: u64,
    src: &[u8],
    hint: u32,
) -> Updated
    requires { (length vol.old ≡ sys.now.y.len) × ((in_heap sys.now.y.count hint ≡ true) × ((number_of (stream_of sys.now.y vol.old b) ≡ 0) × ((length_cause sys.now.y vol.old sys.now.map.now b len ≡ 0) × ((offset + length src.now ≤ len) × (Known sys.now.y vol.old b known (min valid offset) × (1 ≤ length src.now)))))) }
    ensures { let o = extend_in sys.now.y vol.old sys.now.map.now b (missing sys.now.y b len) hint in (success result ≡ o.answer) × (vol.new ≡ with_data sys.now.y o.volume (clusters_in sys.now.y o.volume result.allocation) valid offset src.now) }
{
    let r = file::refresh::grow_to(vol, sys, b, len, hint);
    let place = file::refresh::grown_place(b, known, r.allocation);
    put_data(vol, sys, r.allocation, place, valid, offset, src);
    r
}

// Stores data in the stream of a file with these lengths: refused by its end or by its length, else the stream grown, zeroed and stored to;
// nothing for empty data.
fn write_data(
    vol: &mut [u8],
    sys: &System<'_>,
    b: Allocation,
    known: Place,
    valid: u64,
    len: u64,
    offset: u64,
    src: &[u8],
    hint: u32,
) -> Result<Stored, Cause>
    requires { (length vol.old ≡ sys.now.y.len) × ((in_heap sys.now.y.count hint ≡ true) × ((number_of (stream_of sys.now.y vol.old b) ≡ 0) × Known sys.now.y vol.old b known (min valid offset))) }
    ensures { let o = data_stored sys.now.y vol.old sys.now.map.now b valid len offset src.now hint in (data_answer b valid len hint result ≡ o.answer) × (vol.new ≡ o.volume) }
{
    if src.is_empty() {
        return Ok(Stored {
            allocation: b,
            valid,
            len,
            hint,
        });
    }
    let Some(end) = offset.checked_add(src.len() as u64) else {
        return Err(Cause::PastEnd);
    };
    let goal = len.max(end);
    file::refresh::length_cause(vol, sys, b, goal, hint)?;
    let r = put_grown(vol, sys, b, known, goal, valid, offset, src, hint);
    Ok(Stored {
        allocation: r.allocation,
        valid: valid.max(end),
        len: goal,
        hint: r.hint,
    })
}

// Write on a volume that keeps the limits.
fn write_in(
    vol: &mut [u8],
    sys: &System<'_>,
    root: u32,
    slot: u32,
    offset: u64,
    src: &[u8],
    t: Stamp,
    hint: u32,
) -> Result<Carried, Cause>
    requires { length vol.old ≡ sys.now.y.len }
    ensures { let o = write_in sys.now.y vol.old sys.now.map.now (root_record sys.now.y vol.old root) slot offset src.now t hint in (file_answer hint result ≡ o.answer) × (vol.new ≡ o.volume) }
{
    let mut set = [0u8; 608];
    let f = file::target::open_target(vol, sys, root, slot, offset, hint, &mut set)?;
    let valid = entry_set::entry::valid_length(&set);
    let len = entry_set::entry::data_length(&set);
    let w = write_data(vol, sys, f.stream, f.place, valid, len, offset, src, hint)?;
    file::refresh::record_set(vol, sys, f.spot, &mut set, w.allocation, w.valid, w.len, t);
    Ok(Carried {
        slot: 0,
        hint: w.hint,
    })
}

// Writes data to a file of the root at an offset.
pub fn write_into(
    vol: &mut [u8],
    map: &[u8],
    g: Geometry,
    slot: u32,
    offset: u64,
    src: &[u8],
    t: Stamp,
    hint: u32,
) -> Result<Carried, Cause>
    ensures { let o = write_into g vol.old map.now slot offset src.now t hint in (file_answer hint result ≡ o.answer) × (vol.new ≡ o.volume) }
{
    let sys = boot::system::admit(g, vol.len(), map)?;
    write_in(vol, &sys, g.root_cluster, slot, offset, src, t, hint)
}
