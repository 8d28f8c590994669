// The trials, on volumes of 48 sectors of 512 bytes: the FAT at sector 24, the heap at sector 32, bitmap and root in clusters 2 and 3.
ghost use Rattle.std.specs.Prelude.{◌≡◌};
ghost use Rattle.trials.specs.Volume.{geometry};

use crate::out::{self, Volume};
use boot::cause::number;
use boot::geometry::{Geometry, geometry_of};
use entry_set::stamp::Stamp;
use file::answer::Carried;
use metadata::free::free_clusters;
use primitives::slices::copy_in;
use primitives::words::put_u32;
use stream::allocation::{Allocation, empty_record};
use stream::list::clusters;
use write_alloc::allocate::allocate_clusters;
use write_alloc::answer::Updated;
use write_extend::extend::extend_clusters;
use write_length::set_length::set_length;
use write_shrink::shrink::shrink_clusters;

// FAT entries: the end of a chain, and a bad cluster.
pub const END: u32 = 0xFFFF_FFFF;

const BAD: u32 = 0xFFFF_FFF7;

// The system map: clusters 2 and 3.
pub const MAP: &[u8] = b"\x03\x00";

// The chain of clusters 4 and 5.
const PAIR: Allocation = Allocation {
    first: 4,
    last: 5,
    count: 2,
    no_fat_chain: false,
};

// A call with its own arguments.
#[derive(Clone, Copy)]
enum Call {
    // Clusters and hint.
    Allocate(u32, u32),
    // Record, more and hint.
    Extend(Allocation, u32, u32),
    // Record, keep and hint.
    Shrink(Allocation, u32, u32),
    // None: the record is only listed.
    Read(Allocation),
}

// The geometry of the trials.
pub fn volume() -> Geometry
    ensures { result ≡ geometry }
{
    let w = [9, 0, 24, 1, 1, 0, 32, 16, 3, 2, 0];
    geometry_of(&w)
}

// What the volume holds: the free count, the bitmap's bytes, the FAT, a checksum.
fn state(to: &impl Print, vol: &Volume) {
    let r = free_clusters(vol, MAP, volume());
    let _ = println!(to; "  free {} {}", number(&r), r.unwrap_or(0));
    out::bytes(to, "  marks", &vol[16384..16386]);
    out::fat(to, vol);
    out::sum(to, vol);
}

// A record listed, into 16 places that hold 99, and the volume.
fn reading(to: &impl Print, vol: &Volume, a: Allocation) {
    let mut list = [99u32; 16];
    let r = clusters(vol, MAP, volume(), a, &mut list);
    out::list(to, number(&r), &list);
    state(to, vol);
}

// One trial: the bitmap's first byte is given, and the FAT's entries 4 to 8; entry 3 is the end, the rest is 0. Its lines are the answer,
// with number, record and hint, the record listed on the volume after the call, and that volume.
fn trial(to: &impl Print, name: &str, marks: u8, fat: [u32; 5], call: Call) {
    let mut vol = [0u8; 24576];
    vol[16384] = marks;
    put_u32(&mut vol, 12300, END);
    for (k, entry) in fat.iter().enumerate() {
        put_u32(&mut vol, 12304 + 4 * k, *entry);
    }
    let _ = println!(to; "{name}");
    let g = volume();
    // what the call gives, and the record and the hint that it is given: they are the answer where it is refused
    // Kept: a match, since each case calls another function with other arguments.
    let (r, allocation, hint) = match call {
        Call::Allocate(n, hint) => {
            let r = allocate_clusters(&mut vol, MAP, g, n, None, hint);
            (r, empty_record(), hint)
        }
        Call::Extend(a, more, hint) => {
            let r = extend_clusters(&mut vol, MAP, g, a, more, hint);
            (r, a, hint)
        }
        Call::Shrink(a, keep, hint) => {
            let r = shrink_clusters(&mut vol, MAP, g, a, keep, hint);
            (r, a, hint)
        }
        Call::Read(a) => return reading(to, &vol, a),
    };
    let x = r.unwrap_or(Updated { allocation, hint });
    let a = x.allocation;
    let form = if a.no_fat_chain { "run" } else { "chain" };
    let _ = println!(to;
        "  answer {} {} {} {} {form} {}",
        number(&r),
        a.first,
        a.last,
        a.count,
        x.hint
    );
    reading(to, &vol, a);
}

// T1 to T10.
fn streams(to: &impl Print) {
    let run = Allocation {
        first: 4,
        last: 6,
        count: 3,
        no_fat_chain: true,
    };
    let chain = Allocation {
        first: 4,
        last: 8,
        count: 4,
        no_fat_chain: false,
    };
    let back = [5, 4, 0, 0, 0];
    for (name, marks, fat, call) in [
        // an empty volume
        ("T1", 0x03, [0; 5], Call::Allocate(0, 4)),
        ("T2", 0x03, [0; 5], Call::Allocate(3, 4)),
        ("T3", 0x03, [0; 5], Call::Allocate(14, 4)),
        ("T4", 0x03, [0; 5], Call::Allocate(15, 4)),
        // cluster 6 is bad
        ("T5", 0x03, [0, 0, BAD, 0, 0], Call::Allocate(3, 4)),
        ("T6", 0x03, [0, 0, BAD, 0, 0], Call::Allocate(13, 10)),
        ("T7", 0x03, [0, 0, BAD, 0, 0], Call::Allocate(14, 10)),
        // a run that becomes a chain, and back
        ("T8", 0x3F, [0; 5], Call::Extend(run, 1, 4)),
        ("T9", 0x7F, [5, 6, 8, 0, END], Call::Shrink(chain, 3, 9)),
        // FAT 4 to 5 to 4
        ("T10", 0x0F, back, Call::Read(PAIR)),
        ("T10 extend", 0x0F, back, Call::Extend(PAIR, 1, 4)),
        ("T10 shrink", 0x0F, back, Call::Shrink(PAIR, 1, 4)),
    ] {
        trial(to, name, marks, fat, call);
    }
}

// The file's set, and its bytes around 700, 900 and 1,024.
fn stretches(to: &impl Print, vol: &Volume) {
    out::bytes(to, "  set", &vol[16896..16992]);
    out::bytes(to, "  from 696", &vol[18104..18112]);
    out::bytes(to, "  from 896", &vol[18304..18312]);
    out::bytes(to, "  from 1020", &vol[18428..18436]);
}

// A new length for a file "a" on the run 4..5, length and valid 700, its set at slot 0 of the root: its bytes are 0xA5, those
// behind them in 5 and 6, old contents, 0xB5. Its lines are the answer, with number, slot and hint, and the volume after the call.
fn new_length(to: &impl Print, name: &str, len: u64) {
    let set =
        b"\x85\x02\xEC\x16\x01\x00\x00\x00\x00\x00\x21\x5A\x00\x00\x21\x5A\x00\x00\x21\x5A\x0A\x0A\x84\x84\x84\x00\x00\x00\x00\x00\x00\x00\xC0\x03\x00\x01\x34\x12\x00\x00\xBC\x02\x00\x00\x00\x00\x00\x00\x00\x00\x00\x00\x04\x00\x00\x00\xBC\x02\x00\x00\x00\x00\x00\x00\xC1\x00a";
    let mut vol = [0u8; 24576];
    vol[16384] = 0x0F;
    put_u32(&mut vol, 12300, END);
    copy_in(&mut vol, 16896, set);
    copy_in(&mut vol, 17408, &[0xA5; 700]);
    copy_in(&mut vol, 18108, &[0xB5; 836]);
    let given = Stamp {
        value: 0x5B65_A80F,
        increment: 150,
        offset: 0xA0,
    };
    let r = set_length(&mut vol, MAP, volume(), 0, len, given, 4);
    let x = r.unwrap_or(Carried { slot: 0, hint: 4 });
    let _ = println!(to; "{name}\n  answer {} {} {}", number(&r), x.slot, x.hint);
    state(to, &vol);
    stretches(to, &vol);
}

// T11 and T12: length and valid 700, set 1,300 and 900.
fn lengths(to: &impl Print) {
    new_length(to, "T11", 1300);
    new_length(to, "T12", 900);
}

// A run's old FAT entries, 9, the end and 0x12345678, stay.
fn old(to: &impl Print) {
    let fat = [9, END, 0x12345678, 0, 0];
    trial(to, "old entries stay", 0x03, fat, Call::Allocate(3, 4));
}

// 0xFFFFFFF8 in a chain is no end.
fn eight(to: &impl Print) {
    for (name, call) in [
        ("FFFFFFF8 is no end", Call::Read(PAIR)),
        ("FFFFFFF8 extend", Call::Extend(PAIR, 1, 4)),
        ("FFFFFFF8 shrink", Call::Shrink(PAIR, 1, 4)),
    ] {
        trial(to, name, 0x0F, [5, 0xFFFF_FFF8, 0, 0, 0], call);
    }
}

pub fn all(to: &impl Print) {
    streams(to);
    lengths(to);
    old(to);
    eight(to);
}
