// A row: the answer, the volume, and what a call is given. tests/sample/README.md has their order.
ghost use Rattle.std.specs.Prelude.{◌≡◌, ◌+◌, ◌==◌};
ghost use Rattle.primitives.specs.Words.{get_le};
ghost use Rattle.entry_set.specs.Stamps.{stamps_at};

use entry_set::stamp::{Stamps, stamps_at};
use primitives::words::{u16_at, u32_at, u64_at};
use stream::allocation::Allocation;

// The bytes of a row.
pub type Row = [u8; 65792];

// Where its parts begin: the volume after the answer, the words of a call, its arguments, the map, the name, the data and the geometry.
pub const VOLUME: usize = 128;

pub const WORDS: usize = 41088;

const HINT: usize = WORDS + 28;

const STREAM: usize = 41164;

const FILE: usize = 41184;

pub const MAP: usize = 41224;

pub const NAME: usize = 41240;

pub const DATA: usize = 41840;

pub const GEOMETRY: usize = 46960;

// The units of the longest name.
pub const UNITS: usize = 300;

// The arguments of a call on streams. Allocate has the near cluster in place of the record's first one, and whether it is given in place of
// its flag; `number` is a count of clusters.
#[derive(Clone, Copy)]
pub struct StreamArguments {
    pub record: Allocation,
    pub number: u32,
    pub hint: u32,
}

// The arguments of a call on files; `number` is the offset of a write or a new length.
#[derive(Clone, Copy)]
pub struct FileArguments {
    pub attributes: u16,
    pub hash: u16,
    pub slot: u32,
    pub number: u64,
    pub stamps: Stamps,
    pub hint: u32,
}

// Where the volume, the map and the data end, and how many units the name has.
#[derive(Clone, Copy)]
pub struct Ends {
    pub volume: usize,
    pub map: usize,
    pub data: usize,
    pub units: usize,
}

// The arguments of a call on streams.
pub fn of_stream(row: &Row) -> StreamArguments
    ensures { (result.record ≡ record { first = get_le 4 row.now STREAM; last = get_le 4 row.now (STREAM + 4); count = get_le 4 row.now (STREAM + 8); no_fat_chain = (get_le 4 row.now (STREAM + 12) == 1) }) × ((result.number ≡ get_le 4 row.now (STREAM + 16)) × (result.hint ≡ get_le 4 row.now HINT)) }
{
    StreamArguments {
        record: Allocation {
            first: u32_at(row, STREAM),
            last: u32_at(row, STREAM + 4),
            count: u32_at(row, STREAM + 8),
            no_fat_chain: u32_at(row, STREAM + 12) == 1,
        },
        number: u32_at(row, STREAM + 16),
        hint: u32_at(row, HINT),
    }
}

// The arguments of a call on files.
pub fn of_file(row: &Row) -> FileArguments
    ensures { (result.attributes ≡ get_le 2 row.now FILE) × ((result.hash ≡ get_le 2 row.now (FILE + 2)) × ((result.slot ≡ get_le 4 row.now (FILE + 4)) × ((result.number ≡ get_le 8 row.now (FILE + 8)) × ((result.stamps ≡ stamps_at row.now (FILE + 16)) × (result.hint ≡ get_le 4 row.now HINT))))) }
{
    FileArguments {
        attributes: u16_at(row, FILE),
        hash: u16_at(row, FILE + 2),
        slot: u32_at(row, FILE + 4),
        number: u64_at(row, FILE + 8),
        stamps: stamps_at(row, FILE + 16),
        hint: u32_at(row, HINT),
    }
}

// The ends of a call's slices.
pub fn ends_of(row: &Row) -> Ends
    ensures { (result.volume ≡ VOLUME + get_le 4 row.now (WORDS + 12)) × ((result.map ≡ MAP + get_le 4 row.now (WORDS + 16)) × ((result.«data» ≡ DATA + get_le 4 row.now (WORDS + 20)) × (result.units ≡ get_le 4 row.now (WORDS + 24)))) }
{
    Ends {
        volume: VOLUME + u32_at(row, WORDS + 12) as usize,
        map: MAP + u32_at(row, WORDS + 16) as usize,
        data: DATA + u32_at(row, WORDS + 20) as usize,
        units: u32_at(row, WORDS + 24) as usize,
    }
}
