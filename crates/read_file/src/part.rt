// A part of a file's bytes: of the volume below the file's valid length, of the lent zeros from there to its length.
ghost use Rattle.std.specs.Prelude.{◌≡◌, true, false, ◌+◌, ◌*◌, ◌/◌, ◌≤◌, ◌<◌, length, get_or};
ghost use Rattle.stream.specs.Stream.{number_of, stream_of, clusters_in};
ghost use Rattle.read_file.specs.Part.{no_part, stored_part, zero_part, part_bytes, part_place, Inside};
ghost use Rattle.read_file.specs.Read.{file_part};
ghost use Rattle.read_file.specs.Internal.{Readable};

use boot::system::Places;
use stream::allocation::Allocation;

// Whether a part is of the zeros, else of the volume; its first byte there; and how many bytes it has.
#[derive(Clone, Copy)]
pub struct Part {
    pub zeros: bool,
    pub start: u32,
    pub len: u32,
}

// An empty part.
// Kept: 02 asks for an empty part at a file's end and where a read is refused, not for none.
pub fn no_part() -> Part
    ensures { result ≡ no_part }
{
    Part {
        zeros: false,
        start: 0,
        len: 0,
    }
}

// The part of the volume from an offset below the valid length on, whose cluster k is known. Only FAT entries of the part are read.
fn stored_part<const APART: usize, const WIDE: usize>(
    vol: &[u8],
    sys: &Places<'_, APART, WIDE>,
    a: Allocation,
    k: u32,
    valid: usize,
    offset: usize,
) -> Part
    requires { (length vol.now ≡ sys.now.y.len) × ((number_of (stream_of sys.now.y vol.now a) ≡ 0) × ((offset < valid) × ((valid ≤ a.count * sys.now.y.size) × (k ≡ get_or (clusters_in sys.now.y vol.now a) (offset / sys.now.y.size) 0)))) }
    ensures { result ≡ stored_part sys.now.y (clusters_in sys.now.y vol.now a) valid offset }
{
    let at = offset % sys.y.size;
    let n = (valid - 1) / sys.y.size + 1 - offset / sys.y.size;
    let together = stream::pieces::leading(vol, sys, a.no_fat_chain, k, n as u32) as usize;
    let start = sys.cluster_offset(k) + at;
    let len = (valid - offset).min(together * sys.y.size - at);
    Part {
        zeros: false,
        start: start as u32,
        len: len as u32,
    }
}

// The part of so many zeros from an offset below the length on.
fn zero_part(len: u64, zeros: usize, offset: u64) -> Part
    requires { (offset < len) × (len ≤ 1073741824) }
    ensures { result ≡ zero_part len zeros offset }
{
    let n = ((len - offset) as usize).min(zeros);
    Part {
        zeros: true,
        start: 0,
        len: n as u32,
    }
}

// The part from an offset on of the file whose set, stream and cluster there are known.
pub fn file_part<const APART: usize, const WIDE: usize>(
    vol: &[u8],
    sys: &Places<'_, APART, WIDE>,
    b: Allocation,
    k: u32,
    set: &[u8; 608],
    zeros: usize,
    offset: u64,
) -> Part
    requires { Readable sys.now.y vol.now set.now b k offset }
    ensures { result ≡ file_part sys.now.y vol.now set.now zeros offset }
{
    let valid = entry_set::entry::valid_length(set);
    let len = entry_set::entry::data_length(set);
    if offset < valid {
        return stored_part(vol, sys, b, k, valid as usize, offset as usize);
    }
    if offset < len {
        return zero_part(len, zeros, offset);
    }
    no_part()
}

// A part lent, of the volume or of the zeros as its offset lies (01's form). The contract says which bytes it holds and where it lies.
pub fn lend<'a>(vol: &'a [u8], zeros: &'a [u8], part: Part) -> &'a [u8]
    requires { Inside (length vol.now) (length zeros.now) part }
    ensures { (result.now ≡ part_bytes vol.now zeros.entry.now part) × (result.ref_ptr ≡ part_place vol.entry.ref_ptr zeros.entry.ref_ptr part) }
{
    let a = part.start as usize;
    let n = part.len as usize;
    if part.zeros {
        return &zeros[a..a + n];
    }
    &vol[a..a + n]
}
