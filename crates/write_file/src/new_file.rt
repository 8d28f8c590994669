// New file: the set of an empty file stored in a directory, which grows where it must (Rust: `make_in`, no directory).
ghost use Rattle.std.specs.Prelude.{◌≡◌, Ok, ◌≤◌, length};
ghost use Rattle.tables.specs.Count.{count};
ghost use Rattle.metadata.specs.Usable.{is_usable};
ghost use Rattle.boot.specs.Causes.{number, space_cause};
ghost use Rattle.file.specs.Outcome.{file_answer};
ghost use Rattle.stream.specs.Bytes.{bytes_in};
ghost use Rattle.directory.specs.Internal.{room_for};
ghost use Rattle.write_dir.specs.Internal.{standing};
ghost use Rattle.write_dir.specs.Place.{grow_by};
ghost use Rattle.write_file.specs.Internal.{Ready};
ghost use Rattle.write_file.specs.NewFile.{placed, new_file_in, new_file};

use boot::cause::Cause;
use boot::geometry::Geometry;
use boot::system::{Places, System};
use directory::directory::OpenDirectory;
use directory::entries::Room;
use entry_set::stamp::Stamps;
use file::answer::Carried;
use stream::allocation::Allocation;

// Refuses n more clusters for a directory where fewer are usable. They are searched only where some are wanted, those behind its last one
// first.
fn space_cause<const APART: usize>(
    vol: &[u8],
    sys: &Places<'_, APART, 1>,
    dir: Allocation,
    n: u32,
) -> Result<(), Cause>
    requires { length vol.now ≡ sys.now.y.len }
    ensures { number result ≡ space_cause n (count (is_usable sys.now.y vol.now sys.now.map.now) 2 sys.now.y.count) }
{
    if n == 0 {
        return Ok(());
    }
    let next = dir.last.wrapping_add(1);
    if choice::choice::enough(vol, sys, next, u64::from(n)) {
        return Ok(());
    }
    Err(Cause::NoSpace)
}

// Stores a set of n entries in a directory where there is room for it, the directory grown first (Rust: `insert`).
fn insert(
    vol: &mut [u8],
    sys: &System<'_>,
    dir: Allocation,
    room: Room,
    set: &[u8; 608],
    n: usize,
    hint: u32,
) -> Carried
    requires { Ready sys.now.y vol.old sys.now.map.now dir hint × ((1 ≤ n) × ((n ≤ 19) × ((room ≡ room_for sys.now.y.size (bytes_in sys.now.y vol.old dir) n) × (room.clusters ≤ count (is_usable sys.now.y vol.old sys.now.map.now) 2 sys.now.y.count)))) }
    ensures { let o = placed sys.now.y (grow_by sys.now.y sys.now.map.now room.clusters (standing vol.old dir hint)) n set.now in (file_answer hint (Ok result) ≡ o.answer) × (vol.new ≡ o.volume) }
{
    let w = write_dir::place::grow_by(vol, sys, dir, room.clusters, hint);
    // The system is lent again, for as long as the volume is.
    let grown = OpenDirectory {
        vol,
        sys: &*sys,
        allocation: w.allocation,
    };
    let spot = grown.locate(room.slot);
    write_dir::place::write_set(vol, sys, spot, set, n);
    Carried {
        slot: room.slot,
        hint: w.hint,
    }
}

// Makes an empty file in a directory that opens: refused by its name, its attributes or the directory's space, else its set stored.
fn new_file_in(
    vol: &mut [u8],
    sys: &System<'_>,
    dir: Allocation,
    name: &[u16],
    attributes: u16,
    hash: u16,
    t: Stamps,
    hint: u32,
) -> Result<Carried, Cause>
    requires { Ready sys.now.y vol.old sys.now.map.now dir hint }
    ensures { let o = new_file_in sys.now.y vol.old sys.now.map.now dir name.now attributes hash t hint in (file_answer hint result ≡ o.answer) × (vol.new ≡ o.volume) }
{
    if !entry_set::name::name_ok(name) {
        return Err(Cause::BadName);
    }
    if !entry_set::name::attributes_ok(attributes) {
        return Err(Cause::BadAttributes);
    }
    let n = 2 + entry_set::set::name_entries(name.len());
    // The system is lent again, for as long as the volume is.
    let opened = OpenDirectory {
        vol,
        sys: &*sys,
        allocation: dir,
    };
    let room = opened.free_run(n as u32);
    space_cause(vol, sys, dir, room.clusters)?;
    let set = entry_set::set::new_set(name, attributes, hash, t);
    Ok(insert(vol, sys, dir, room, &set, n, hint))
}

// Makes an empty file in the root (Rust: `make_in`, no directory).
pub fn make_in(
    vol: &mut [u8],
    map: &[u8],
    g: Geometry,
    name: &[u16],
    attributes: u16,
    hash: u16,
    t: Stamps,
    hint: u32,
) -> Result<Carried, Cause>
    ensures { let o = new_file g vol.old map.now name.now attributes hash t hint in (file_answer hint result ≡ o.answer) × (vol.new ≡ o.volume) }
{
    let sys = boot::system::admit(g, vol.len(), map)?;
    if !boot::layout::in_heap(sys.y.count, hint) {
        return Err(Cause::OutsideHeap);
    }
    let root = OpenDirectory::root_dir(vol, &sys, g.root_cluster)?.allocation;
    new_file_in(vol, &sys, root, name, attributes, hash, t, hint)
}
