// The C boundary: the library's calls over numbers and slices alone (include/exfat.h). Each function takes its arguments apart,
// makes the call and stores what it gives; every function answers the number, but for the read of a part, whose number is a call of its own.
#![tactic(auto)]

mod words;

ghost use Rattle.std.specs.Prelude.{◌≡◌, length};
ghost use Rattle.boot.specs.Geometry.{geometry_of};
ghost use Rattle.metadata.specs.Free.{free_clusters};
ghost use Rattle.stream.specs.Listing.{listing_number, listing_list};
ghost use Rattle.entry_set.specs.Stamps.{stamp_at, stamps_at};
ghost use Rattle.read_file.specs.Read.{read_number, read_part};
ghost use Rattle.read_file.specs.Part.{Inside};
ghost use Rattle.write_alloc.specs.Allocate.{allocate_clusters};
ghost use Rattle.write_extend.specs.Extend.{extend_clusters};
ghost use Rattle.write_shrink.specs.Shrink.{shrink_clusters};
ghost use Rattle.write_file.specs.NewFile.{new_file};
ghost use Rattle.write_file.specs.Write.{write_into};
ghost use Rattle.write_length.specs.SetLength.{set_length};
ghost use Rattle.write_remove.specs.Remove.{remove};
ghost use Rattle.exfat.specs.Words.{flag_of, allocation_of, count_words, part_words, answer_words, slot_words, hint_words};

use boot::cause::number;
use boot::geometry::GEOMETRY_WORDS;

// How many clusters are free.
#[unsafe(no_mangle)]
pub extern "C" fn exfat_free_count(
    vol: &[u8],
    map: &[u8],
    geometry: &[u32; GEOMETRY_WORDS],
    out: &mut [u32; 8],
) -> u32
    ensures { let f = free_clusters (geometry_of geometry.now) vol.now map.now in (result ≡ f.number) × (out.new ≡ count_words f.count) }
{
    let g = boot::geometry::geometry_of(geometry);
    words::put_count(out, metadata::free::free_clusters(vol, map, g))
}

// The clusters of a record, written to a list.
#[unsafe(no_mangle)]
pub extern "C" fn exfat_clusters(
    vol: &[u8],
    map: &[u8],
    geometry: &[u32; GEOMETRY_WORDS],
    allocation: &[u32; 4],
    list: &mut [u32],
) -> u32
    ensures { (result ≡ listing_number (geometry_of geometry.now) vol.now map.now (allocation_of allocation.now) (length list.old)) × (list.new ≡ listing_list (geometry_of geometry.now) vol.now map.now (allocation_of allocation.now) list.old) }
{
    let g = boot::geometry::geometry_of(geometry);
    let a = words::allocation_of(allocation);
    number(&stream::list::clusters(vol, map, g, a, list))
}

// The number of a read of the file at a slot.
#[unsafe(no_mangle)]
pub extern "C" fn exfat_read_number(
    vol: &[u8],
    map: &[u8],
    geometry: &[u32; GEOMETRY_WORDS],
    zeros: &[u8],
    slot: u32,
) -> u32
    ensures { result ≡ read_number (geometry_of geometry.now) vol.now map.now zeros.now slot }
{
    let g = boot::geometry::geometry_of(geometry);
    number(&read_file::read::read_number(vol, map, g, zeros, slot))
}

// Where the bytes of the file at a slot lie, from an offset on: the slice, the start in it and the length. No reference can be returned
// to C, which adds the start to the pointer that it lent.
#[unsafe(no_mangle)]
pub extern "C" fn exfat_read(
    vol: &[u8],
    map: &[u8],
    geometry: &[u32; GEOMETRY_WORDS],
    zeros: &[u8],
    slot: u32,
    offset: u64,
    out: &mut [u32; 8],
)
    ensures { let p = read_part (geometry_of geometry.now) vol.now map.now zeros.now slot offset in (out.new ≡ part_words p) × Inside (length vol.now) (length zeros.now) p }
{
    let g = boot::geometry::geometry_of(geometry);
    let p = read_file::read::read_part(vol, map, g, zeros, slot, offset);
    words::put_part(out, p);
}

// A new stream of `count` clusters, near a cluster where has_near is not 0.
#[unsafe(no_mangle)]
pub extern "C" fn exfat_allocate(
    vol: &mut [u8],
    map: &[u8],
    geometry: &[u32; GEOMETRY_WORDS],
    count: u32,
    has_near: u32,
    near: u32,
    hint: u32,
    out: &mut [u32; 8],
) -> u32
    ensures { let o = allocate_clusters (geometry_of geometry.now) vol.old map.now count (flag_of has_near) near hint in (result ≡ o.answer.number) × ((vol.new ≡ o.volume) × (out.new ≡ answer_words o.answer)) }
{
    let g = boot::geometry::geometry_of(geometry);
    let near = words::near_of(has_near, near);
    let r = write_alloc::allocate::allocate_clusters(vol, map, g, count, near, hint);
    words::put_answer(out, stream::allocation::empty_record(), hint, r)
}

// A record with `more` clusters added.
#[unsafe(no_mangle)]
pub extern "C" fn exfat_extend(
    vol: &mut [u8],
    map: &[u8],
    geometry: &[u32; GEOMETRY_WORDS],
    allocation: &[u32; 4],
    more: u32,
    hint: u32,
    out: &mut [u32; 8],
) -> u32
    ensures { let o = extend_clusters (geometry_of geometry.now) vol.old map.now (allocation_of allocation.now) more hint in (result ≡ o.answer.number) × ((vol.new ≡ o.volume) × (out.new ≡ answer_words o.answer)) }
{
    let g = boot::geometry::geometry_of(geometry);
    let a = words::allocation_of(allocation);
    let r = write_extend::extend::extend_clusters(vol, map, g, a, more, hint);
    words::put_answer(out, a, hint, r)
}

// A record cut to its first `keep` clusters.
#[unsafe(no_mangle)]
pub extern "C" fn exfat_shrink(
    vol: &mut [u8],
    map: &[u8],
    geometry: &[u32; GEOMETRY_WORDS],
    allocation: &[u32; 4],
    keep: u32,
    hint: u32,
    out: &mut [u32; 8],
) -> u32
    ensures { let o = shrink_clusters (geometry_of geometry.now) vol.old map.now (allocation_of allocation.now) keep hint in (result ≡ o.answer.number) × ((vol.new ≡ o.volume) × (out.new ≡ answer_words o.answer)) }
{
    let g = boot::geometry::geometry_of(geometry);
    let a = words::allocation_of(allocation);
    let r = write_shrink::shrink::shrink_clusters(vol, map, g, a, keep, hint);
    words::put_answer(out, a, hint, r)
}

// A new, empty file in the root.
#[unsafe(no_mangle)]
pub extern "C" fn exfat_new_file(
    vol: &mut [u8],
    map: &[u8],
    geometry: &[u32; GEOMETRY_WORDS],
    name: &[u16],
    attributes: u16,
    hash: u16,
    stamps: &[u8; 18],
    hint: u32,
    out: &mut [u32; 8],
) -> u32
    ensures { let o = new_file (geometry_of geometry.now) vol.old map.now name.now attributes hash (stamps_at stamps.now 0) hint in (result ≡ o.answer.number) × ((vol.new ≡ o.volume) × (out.new ≡ slot_words o.answer)) }
{
    let g = boot::geometry::geometry_of(geometry);
    let t = words::stamps_of(stamps);
    let r = write_file::new_file::make_in(vol, map, g, name, attributes, hash, t, hint);
    words::put_slot(out, hint, r)
}

// Data written to the file at a slot.
#[unsafe(no_mangle)]
pub extern "C" fn exfat_write(
    vol: &mut [u8],
    map: &[u8],
    geometry: &[u32; GEOMETRY_WORDS],
    slot: u32,
    offset: u64,
    src: &[u8],
    stamp: &[u8; 6],
    hint: u32,
    out: &mut [u32; 8],
) -> u32
    ensures { let o = write_into (geometry_of geometry.now) vol.old map.now slot offset src.now (stamp_at stamp.now 0) hint in (result ≡ o.answer.number) × ((vol.new ≡ o.volume) × (out.new ≡ hint_words o.answer)) }
{
    let g = boot::geometry::geometry_of(geometry);
    let t = words::stamp_of(stamp);
    let r = write_file::write::write_into(vol, map, g, slot, offset, src, t, hint);
    words::put_hint(out, hint, r)
}

// A new length for the file at a slot.
#[unsafe(no_mangle)]
pub extern "C" fn exfat_set_length(
    vol: &mut [u8],
    map: &[u8],
    geometry: &[u32; GEOMETRY_WORDS],
    slot: u32,
    len: u64,
    stamp: &[u8; 6],
    hint: u32,
    out: &mut [u32; 8],
) -> u32
    ensures { let o = set_length (geometry_of geometry.now) vol.old map.now slot len (stamp_at stamp.now 0) hint in (result ≡ o.answer.number) × ((vol.new ≡ o.volume) × (out.new ≡ hint_words o.answer)) }
{
    let g = boot::geometry::geometry_of(geometry);
    let t = words::stamp_of(stamp);
    let r = write_length::set_length::set_length(vol, map, g, slot, len, t, hint);
    words::put_hint(out, hint, r)
}

// The file at a slot removed.
#[unsafe(no_mangle)]
pub extern "C" fn exfat_remove(
    vol: &mut [u8],
    map: &[u8],
    geometry: &[u32; GEOMETRY_WORDS],
    slot: u32,
    hint: u32,
    out: &mut [u32; 8],
) -> u32
    ensures { let o = remove (geometry_of geometry.now) vol.old map.now slot hint in (result ≡ o.answer.number) × ((vol.new ≡ o.volume) × (out.new ≡ hint_words o.answer)) }
{
    let g = boot::geometry::geometry_of(geometry);
    let r = write_remove::remove::remove(vol, map, g, slot, hint);
    words::put_hint(out, hint, r)
}
