// A file opened by its slot: its set copied, its record, and what refuses it (Rust: `open_for_write`, `stream_allocation`).
ghost use Rattle.std.specs.Prelude.{◌≡◌, true, false, cond, ◌+◌, ◌-◌, ◌≤◌, ◌<◌, length, replicate};
ghost use Rattle.tables.specs.Lists.{last_or};
ghost use Rattle.boot.specs.Layout.{in_heap};
ghost use Rattle.metadata.specs.Fat.{fat_entry};
ghost use Rattle.stream.specs.Chain.{read_chain};
ghost use Rattle.stream.specs.Stream.{clusters_of};
ghost use Rattle.entry_set.specs.Fields.{valid_length};
ghost use Rattle.entry_set.specs.Sound.{well_formed};
ghost use Rattle.directory.specs.Entries.{entry_count, before_end, entries_at};
ghost use Rattle.directory.specs.Internal.{set_fits, whole_set, set_read, opened_stream, start_steps, open_file, root_file, root_file_set, stream_opened, file_opened, bytes, slot_place, slot_set};
ghost use Rattle.boot.specs.Causes.{number};
ghost use Rattle.directory.specs.Directory.{root_record};
ghost use Rattle.directory.specs.Open.{file_record, directory_attribute_cause};

use crate::directory::OpenDirectory;
use crate::entries::Cursor;
use crate::spot::Spot;
use boot::cause::Cause;
use boot::system::{Places, System};
use stream::allocation::Allocation;
use stream::bytes::Place;

// A stream opened: its record and the place where the call begins in it.
#[derive(Clone, Copy)]
struct OpenStream {
    allocation: Allocation,
    place: Place,
}

// A file opened (Rust: `OpenFile`): where its set stands, its stream's record and the place where the call begins in it, which the walk
// that tested the stream took down.
#[derive(Clone, Copy)]
pub struct OpenFile {
    pub spot: Spot,
    pub stream: Allocation,
    pub place: Place,
}

// Opens a chain of n clusters: one walk gives its record, the place `goal` steps along it, and what refuses it.
fn open_chain<const APART: usize>(
    vol: &[u8],
    sys: &Places<'_, APART, 1>,
    first: u32,
    n: u32,
    goal: u32,
) -> Result<OpenStream, Cause>
    requires { (length vol.now ≡ sys.now.y.len) × ((in_heap sys.now.y.count first ≡ true) × (goal < n)) }
    ensures { stream_opened result ≡ opened_stream sys.now.y vol.now sys.now.map.now (record { first = first; last = last_or 0 (clusters_of (read_chain sys.now.y.count (fat_entry sys.now.y vol.now) first)); count = n; no_fat_chain = false }) goal }
{
    let w = stream::walk::fat_chain(vol, sys, false, first, goal)?;
    stream::walk::walk_cause(w, w.last, n)?;
    if w.clear {
        let allocation = Allocation {
            first,
            last: w.last,
            count: n,
            no_fat_chain: false,
        };
        let place = Place {
            cluster: w.seen,
            steps: goal,
        };
        Ok(OpenStream { allocation, place })
    } else {
        Err(Cause::SystemCluster)
    }
}

// Opens a run of n clusters: its marks, then the system map; no FAT entry is read.
fn open_run<const APART: usize>(
    vol: &[u8],
    sys: &Places<'_, APART, 1>,
    first: u32,
    n: u32,
    goal: u32,
) -> Result<OpenStream, Cause>
    requires { (length vol.now ≡ sys.now.y.len) × ((first + n ≤ sys.now.y.count + 2) × (goal < n)) }
    ensures { stream_opened result ≡ opened_stream sys.now.y vol.now sys.now.map.now (record { first = first; last = first + n - 1; count = n; no_fat_chain = true }) goal }
{
    let allocation = Allocation {
        first,
        last: first + n - 1,
        count: n,
        no_fat_chain: true,
    };
    stream::walk::stream_cause(vol, sys, allocation)?;
    stream::system::system_cause(vol, sys, true, first, n)?;
    let place = Place {
        cluster: first + goal,
        steps: goal,
    };
    Ok(OpenStream { allocation, place })
}

// How many steps lead to where a call on the bytes from an offset on begins, in the stream of n clusters that a set has.
fn start_steps<const APART: usize, const WIDE: usize>(
    sys: &Places<'_, APART, WIDE>,
    set: &[u8; 608],
    offset: u64,
    n: u32,
) -> u32
    requires { 1 ≤ n }
    ensures { result ≡ start_steps sys.now.y.size (valid_length set.now) offset n }
{
    let at = entry_set::entry::valid_length(set).min(offset);
    (at / (sys.y.size as u64)).min(u64::from(n - 1)) as u32
}

// Opens the stream of a set for a call on its bytes from an offset on.
fn open_stream<const APART: usize>(
    vol: &[u8],
    sys: &Places<'_, APART, 1>,
    set: &[u8; 608],
    offset: u64,
) -> Result<OpenStream, Cause>
    requires { (length vol.now ≡ sys.now.y.len) × (well_formed sys.now.y.count sys.now.y.size set.now ≡ true) }
    ensures { let b = file_record sys.now.y vol.now set.now in stream_opened result ≡ opened_stream sys.now.y vol.now sys.now.map.now b (start_steps sys.now.y.size (valid_length set.now) offset b.count) }
{
    let len = entry_set::entry::data_length(set);
    if len == 0 {
        return Ok(OpenStream {
            allocation: stream::allocation::empty_record(),
            // Kept: an empty stream has no cluster, and no byte of it is sought.
            place: Place {
                cluster: 0,
                steps: 0,
            },
        });
    }
    let n = entry_set::entry::clusters_for(sys.y.size, len) as u32;
    let first = entry_set::entry::first_cluster(set);
    let goal = start_steps(sys, set, offset, n);
    if entry_set::entry::no_fat_chain(set) {
        open_run(vol, sys, first, n, goal)
    } else {
        open_chain(vol, sys, first, n, goal)
    }
}

// Refuses a set's bytes that are not well formed, then a directory.
fn set_cause(set: &[u8; 608], count: u32, size: usize) -> Result<(), Cause>
    requires { (1 ≤ size) × (count ≤ 32768) }
    ensures { number result ≡ cond (well_formed count size set.now) (directory_attribute_cause set.now) 10 }
{
    if !entry_set::entry::well_formed(set, count, size) {
        return Err(Cause::NoFile);
    }
    if entry_set::entry::is_directory(set) {
        return Err(Cause::IsDirectory);
    }
    Ok(())
}

impl<const WIDE: usize> OpenDirectory<'_, 1, WIDE> {
    // How many entries the set has whose first entry e is, at a slot with no type 0 before it: none where that is no file entry or the
    // set does not fit.
    fn entries_here(&self, slot: u32, e: Cursor, total: u32) -> Option<usize>
        requires { (slot < entry_count (bytes self.now)) × ((e ≡ slot_place self.now slot) × ((total ≡ entry_count (bytes self.now)) × ((total ≤ 524288) × (before_end (bytes self.now) slot ≡ true)))) }
        ensures { result ≡ whole_set (bytes self.now) slot }
    {
        if crate::entries::byte_at(self.vol, self.sys, e.cluster, e.at) != 0x85 {
            return None;
        }
        let n = 1 + usize::from(crate::entries::byte_at(self.vol, self.sys, e.cluster, e.at + 1));
        if 19 < n || (total as usize) < slot as usize + n {
            return None;
        }
        Some(n)
    }

    // Copies the set of n entries at a slot, whose entry is known.
    fn copy_set(&self, slot: u32, e: Cursor, n: usize, set: &mut [u8; 608])
        requires { (e ≡ slot_place self.now slot) × ((n ≡ entries_at (bytes self.now) slot) × ((n ≤ 19) × ((slot + n ≤ entry_count (bytes self.now)) × (set.old ≡ replicate 608 0)))) }
        ensures { set.new ≡ slot_set self.now slot }
    {
        let at = 32 * (slot as usize);
        let known = Place {
            cluster: e.cluster,
            steps: (at / self.sys.y.size) as u32,
        };
        stream::bytes::read(
            self.vol,
            self.sys,
            self.allocation,
            known,
            at,
            &mut set[..32 * n],
        );
    }
}

impl OpenDirectory<'_, 1, 1> {
    // Opens the file of a set that is copied, whose entry is known.
    fn open_copied(
        &self,
        slot: u32,
        e: Cursor,
        set: &[u8; 608],
        offset: u64,
    ) -> Result<OpenFile, Cause>
        requires { (slot < entry_count (bytes self.now)) × ((e ≡ slot_place self.now slot) × ((set_fits (bytes self.now) slot ≡ true) × (set.now ≡ slot_set self.now slot))) }
        ensures { let d = self.now in file_opened result ≡ open_file d.sys.now.y d.vol.now d.sys.now.map.now d.allocation slot offset }
    {
        set_cause(set, self.sys.y.count, self.sys.y.size)?;
        let s = open_stream(self.vol, self.sys, set, offset)?;
        Ok(OpenFile {
            spot: self.spot_from(slot, e),
            stream: s.allocation,
            place: s.place,
        })
    }

    // Opens the file whose entry is known, at a slot with no type 0 before it, and copies its set.
    fn open_at(
        &self,
        slot: u32,
        e: Cursor,
        total: u32,
        offset: u64,
        set: &mut [u8; 608],
    ) -> Result<OpenFile, Cause>
        requires { (slot < entry_count (bytes self.now)) × ((e ≡ slot_place self.now slot) × ((total ≡ entry_count (bytes self.now)) × ((total ≤ 524288) × ((before_end (bytes self.now) slot ≡ true) × (set.old ≡ replicate 608 0))))) }
        ensures { let d = self.now in (file_opened result ≡ open_file d.sys.now.y d.vol.now d.sys.now.map.now d.allocation slot offset) × (set.new ≡ set_read (bytes d) slot) }
    {
        let Some(n) = self.entries_here(slot, e, total) else {
            return Err(Cause::NoFile);
        };
        self.copy_set(slot, e, n, set);
        self.open_copied(slot, e, set, offset)
    }

    // Opens the file at a slot for a call on its bytes from an offset on, and copies its set (Rust: `open_for_write`); the place where
    // the call begins is taken down on the way.
    pub fn open_file(&self, slot: u32, offset: u64, set: &mut [u8; 608]) -> Result<OpenFile, Cause>
        requires { set.old ≡ replicate 608 0 }
        ensures { let d = self.now in (file_opened result ≡ open_file d.sys.now.y d.vol.now d.sys.now.map.now d.allocation slot offset) × (set.new ≡ set_read (bytes d) slot) }
    {
        let total = self.entry_count();
        if total <= slot {
            return Err(Cause::NoFile);
        }
        let Some(e) = self.slot_entry(slot) else {
            return Err(Cause::NoFile);
        };
        self.open_at(slot, e, total, offset, set)
    }
}

// Opens the root and the file at a slot of it, and copies the file's set.
pub fn open_in_root(
    vol: &[u8],
    sys: &System<'_>,
    root: u32,
    slot: u32,
    offset: u64,
    set: &mut [u8; 608],
) -> Result<OpenFile, Cause>
    requires { (length vol.now ≡ sys.now.y.len) × (set.old ≡ replicate 608 0) }
    ensures { let d = vol.now in (file_opened result ≡ root_file sys.now.y d sys.now.map.now (root_record sys.now.y d root) slot offset) × (set.new ≡ root_file_set sys.now.y d (root_record sys.now.y d root) slot) }
{
    let dir = OpenDirectory::root_dir(vol, sys, root)?;
    dir.open_file(slot, offset, set)
}
