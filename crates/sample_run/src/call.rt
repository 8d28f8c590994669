// The calls: each on a volume as the Rust had it, its answer and all that it left held against the Rust's.
ghost use Rattle.sample_run.specs.declared.row.TheConstants.{VOLUME, WORDS};
ghost use Rattle.std.specs.Prelude.{◌≡◌, ◌≤◌, length, take, bytes_eq};

use crate::row::{
    DATA, GEOMETRY, MAP, NAME, Row, UNITS, VOLUME, WORDS, ends_of, of_file, of_stream,
};
use boot::cause::{Cause, number};
use boot::geometry::{GEOMETRY_WORDS, Geometry, geometry_of};
use carry_out::carry_out::{FileCall, carry_out};
use file::answer::Carried;
use metadata::free::free_clusters;
use primitives::words::{put_u32, u16_at, u32_at};
use stream::allocation::empty_record;
use stream::list::clusters;
use write_alloc::allocate::allocate_clusters;
use write_alloc::answer::Updated;
use write_extend::extend::extend_clusters;
use write_file::new_file::make_in;
use write_file::write::write_into;
use write_length::set_length::set_length;
use write_remove::remove::remove;
use write_shrink::shrink::shrink_clusters;

// The calls that change a stream's clusters.
#[derive(Clone, Copy)]
enum StreamCall {
    Allocate,
    Extend,
    Shrink,
}

// The calls that change files, without their arguments.
// Kept: the table below names calls before there is a row to take arguments from.
#[derive(Clone, Copy)]
enum FileKind {
    NewFile,
    Write,
    SetLength,
    Remove,
}

// The kinds of calls.
#[derive(Clone, Copy)]
enum Kind {
    FreeCount,
    Clusters,
    Stream(StreamCall),
    File(FileKind),
}

// The name of each kind, by its number.
const KINDS: [(&str, Kind); 9] = [
    ("free count", Kind::FreeCount),
    ("clusters", Kind::Clusters),
    ("allocate", Kind::Stream(StreamCall::Allocate)),
    ("extend", Kind::Stream(StreamCall::Extend)),
    ("shrink", Kind::Stream(StreamCall::Shrink)),
    ("new file", Kind::File(FileKind::NewFile)),
    ("write", Kind::File(FileKind::Write)),
    ("set length", Kind::File(FileKind::SetLength)),
    ("remove", Kind::File(FileKind::Remove)),
];

// A call: the kind's name, the row with what the Rust answered and left, and what the row gives the call. The volume ends at byte `end`.
#[derive(Clone, Copy)]
struct Call<'a> {
    kind_name: &'static str,
    row: &'a Row,
    end: usize,
    map: &'a [u8],
    name: &'a [u16],
    data: &'a [u8],
    geometry: Geometry,
    ghost volume_in_row: { (VOLUME ≤ end) × (end ≤ WORDS) },
}

// Whether two rows begin with the same n bytes.
// Kept: tried on the interpreter, `==` of the two slices took 179 s of the program, `all` with a closure 221 s, and a loop by index 58 s.
// With no way out before the end, the compiler compares 16 bytes at a time.
fn same(a: &Row, b: &Row, n: usize) -> bool
    requires { n ≤ WORDS }
    ensures { result ≡ bytes_eq (take n a.now) (take n b.now) }
{
    let mut all = true;
    for i in 0..n {
        if a[i] != b[i] {
            all = false;
        }
    }
    all
}

impl Call<'_> {
    // A call's line: which call it is, the way that it was made, the number that the library gave, and whether all is as the Rust left it.
    // The answer is put before the volume that the call left.
    fn line(&self, to: &impl Print, way: &str, left: &Row, answer: &[u32])
        requires { length answer.now ≤ 25 }
    {
        let mut got = *left;
        for (k, word) in answer.iter().enumerate() {
            put_u32(&mut got, 4 * k, *word);
        }
        let row = self.row;
        let volume = u32_at(row, WORDS);
        let call = u32_at(row, WORDS + 4);
        let number = u32_at(&got, 0);
        let verdict = if same(&got, row, self.end) {
            "agrees"
        } else {
            "DIFFERS"
        };
        let _ = println!(to;
            "volume {volume} call {call} {}{way}: {number} {verdict}",
            self.kind_name
        );
    }

    // Free count.
    fn free_count(&self, to: &impl Print, before: &Row) {
        let r = free_clusters(&before[VOLUME..self.end], self.map, self.geometry);
        self.line(to, "", before, &[number(&r), r.unwrap_or(0)]);
    }

    // Clusters, into 24 places that hold 99 each; the places past the stream's end must keep it.
    fn clusters(&self, to: &impl Print, before: &Row) {
        let record = of_stream(self.row).record;
        let mut answer = [99u32; 25];
        let vol = &before[VOLUME..self.end];
        let r = clusters(vol, self.map, self.geometry, record, &mut answer[1..]);
        answer[0] = number(&r);
        self.line(to, "", before, &answer);
    }

    // A call that changes a stream's clusters.
    fn on_stream(&self, to: &impl Print, before: &Row, call: StreamCall) {
        let mut left = *before;
        let vol = &mut left[VOLUME..self.end];
        let map = self.map;
        let g = self.geometry;
        let x = of_stream(self.row);
        let s = x.record;
        // what the call gives, and the record that it is given, which is the answer's where it is refused
        // Kept: a match here and below, since each case calls another function with other arguments.
        let (r, allocation) = match call {
            StreamCall::Allocate => {
                let near = if s.no_fat_chain { Some(s.first) } else { None };
                let r = allocate_clusters(vol, map, g, x.number, near, x.hint);
                (r, empty_record())
            }
            StreamCall::Extend => (extend_clusters(vol, map, g, s, x.number, x.hint), s),
            StreamCall::Shrink => (shrink_clusters(vol, map, g, s, x.number, x.hint), s),
        };
        let u = r.unwrap_or(Updated {
            allocation,
            hint: x.hint,
        });
        let a = u.allocation;
        let answer = [
            number(&r),
            a.first,
            a.last,
            a.count,
            u32::from(a.no_fat_chain),
            u.hint,
        ];
        self.line(to, "", &left, &answer);
    }

    // The line of a call on files: refused, slot 0 and the hint that it was given.
    fn file_line(
        &self,
        to: &impl Print,
        way: &str,
        left: &Row,
        hint: u32,
        r: Result<Carried, Cause>,
    ) {
        let x = r.unwrap_or(Carried { slot: 0, hint });
        self.line(to, way, left, &[number(&r), x.slot, x.hint]);
    }

    // A call on files, made twice: by the library's function for it, and by carry_out.
    fn on_file(&self, to: &impl Print, before: &Row, kind: FileKind) {
        let name = self.name;
        let data = self.data;
        let map = self.map;
        let g = self.geometry;
        let x = of_file(self.row);
        let slot = x.slot;
        let t = x.stamps;
        let hint = x.hint;
        let mut left = *before;
        let vol = &mut left[VOLUME..self.end];
        // what the library's function gives, and the call for carry_out
        let (r, call) = match kind {
            FileKind::NewFile => {
                let attributes = x.attributes;
                let hash = x.hash;
                let r = make_in(vol, map, g, name, attributes, hash, t, hint);
                (
                    r,
                    FileCall::NewFile {
                        name,
                        attributes,
                        hash,
                    },
                )
            }
            FileKind::Write => {
                let offset = x.number;
                let r = write_into(vol, map, g, slot, offset, data, t.modified, hint);
                (r, FileCall::Write { slot, offset, data })
            }
            FileKind::SetLength => {
                let len = x.number;
                let r = set_length(vol, map, g, slot, len, t.modified, hint);
                (r, FileCall::SetLength { slot, len })
            }
            FileKind::Remove => {
                let r = remove(vol, map, g, slot, hint);
                (r, FileCall::Remove { slot })
            }
        };
        self.file_line(to, "", &left, hint, r);
        left = *before;
        let r = carry_out(&mut left[VOLUME..self.end], map, g, call, t, hint);
        self.file_line(to, " by carry_out", &left, hint, r);
    }
}

// The call that a row asks for; no line where one of its slices is longer than there is room for.
pub fn replay(to: &impl Print, before: &Row, row: &Row) {
    let (kind_name, kind) = match KINDS.get(u32_at(row, WORDS + 8) as usize) {
        Some(&known) => known,
        // any further number is a shrink, under the last name
        None => ("remove", Kind::Stream(StreamCall::Shrink)),
    };
    let x = ends_of(row);
    if x.volume <= WORDS && x.map <= row.len() && x.data <= row.len() && x.units <= UNITS {
        let mut words = [0u32; GEOMETRY_WORDS];
        for (i, word) in words.iter_mut().enumerate() {
            *word = u32_at(row, GEOMETRY + 4 * i);
        }
        let mut units = [0u16; UNITS];
        for (i, unit) in units[..x.units].iter_mut().enumerate() {
            *unit = u16_at(row, NAME + 2 * i);
        }
        let call = Call {
            kind_name,
            row,
            end: x.volume,
            map: &row[MAP..x.map],
            name: &units[..x.units],
            data: &row[DATA..x.data],
            geometry: geometry_of(&words),
        };
        match kind {
            Kind::FreeCount => call.free_count(to, before),
            Kind::Clusters => call.clusters(to, before),
            Kind::Stream(change) => call.on_stream(to, before, change),
            Kind::File(change) => call.on_file(to, before, change),
        }
    }
}
