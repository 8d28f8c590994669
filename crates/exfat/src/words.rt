// Arguments and answers as words: what crosses the C boundary.
ghost use Rattle.std.specs.Prelude.{◌≡◌, cond, Some, None};
ghost use Rattle.entry_set.specs.Stamps.{stamp_at, stamps_at};
ghost use Rattle.file.specs.Outcome.{file_answer};
ghost use Rattle.metadata.specs.Free.{free_answer};
ghost use Rattle.write_alloc.specs.Outcome.{answer_of};
ghost use Rattle.exfat.specs.Words.{flag_of, flag_word, allocation_of, count_words, part_words, answer_words, slot_words, hint_words};

use boot::cause::{Cause, number};
use entry_set::stamp::{Stamp, Stamps};
use file::answer::Carried;
use read_file::part::Part;
use stream::allocation::Allocation;
use write_alloc::answer::Updated;

// A flag in a word: 0 is clear, any other value set.
pub fn flag_of(w: u32) -> bool
    ensures { result ≡ flag_of w }
{
    w != 0
}

// And back: 0 or 1.
fn flag_word(flag: bool) -> u32
    ensures { result ≡ flag_word flag }
{
    u32::from(flag)
}

// A near cluster, given where the word before it is not 0.
pub fn near_of(has_near: u32, near: u32) -> Option<u32>
    ensures { result ≡ cond (flag_of has_near) (Some near) None }
{
    flag_of(has_near).then_some(near)
}

// A stream's record: first, last, count, no_fat_chain.
pub fn allocation_of(w: &[u32; 4]) -> Allocation
    ensures { result ≡ allocation_of w.now }
{
    let [first, last, count, flag] = *w;
    Allocation {
        first,
        last,
        count,
        no_fat_chain: flag_of(flag),
    }
}

// One stamp.
pub fn stamp_of(bytes: &[u8; 6]) -> Stamp
    ensures { result ≡ stamp_at bytes.now 0 }
{
    entry_set::stamp::stamp_at(bytes, 0)
}

// The stamps of a new file: created, modified, accessed.
pub fn stamps_of(bytes: &[u8; 18]) -> Stamps
    ensures { result ≡ stamps_at bytes.now 0 }
{
    entry_set::stamp::stamps_at(bytes, 0)
}

// Stores what a free count gives, 0 where it is refused, and answers its number.
#[tactic(auto, unfolding(crate::specs::Words::count_words, metadata::specs::Free::free_answer))]
pub fn put_count(out: &mut [u32; 8], r: Result<u32, Cause>) -> u32
    ensures { let f = free_answer r in (result ≡ f.number) × (out.new ≡ count_words f.count) }
{
    *out = [r.unwrap_or(0), 0, 0, 0, 0, 0, 0, 0];
    number(&r)
}

// Stores where a part lies.
pub fn put_part(out: &mut [u32; 8], p: Part)
    ensures { out.new ≡ part_words p }
{
    *out = [flag_word(p.zeros), p.start, p.len, 0, 0, 0, 0, 0];
}

// Stores the record and the hint of a call on streams, those that it was given where it is refused, and answers its number.
pub fn put_answer(
    out: &mut [u32; 8],
    allocation: Allocation,
    hint: u32,
    r: Result<Updated, Cause>,
) -> u32
    ensures { let x = answer_of allocation hint r in (result ≡ x.number) × (out.new ≡ answer_words x) }
{
    let x = r.unwrap_or(Updated { allocation, hint });
    let a = x.allocation;
    let flag = flag_word(a.no_fat_chain);
    *out = [a.first, a.last, a.count, flag, x.hint, 0, 0, 0];
    number(&r)
}

// Stores the slot and the hint of a new file, slot 0 and the hint that it was given where it is refused, and answers its number.
#[tactic(auto, unfolding(crate::specs::Words::slot_words))]
pub fn put_slot(out: &mut [u32; 8], hint: u32, r: Result<Carried, Cause>) -> u32
    ensures { let x = file_answer hint r in (result ≡ x.number) × (out.new ≡ slot_words x) }
{
    let x = r.unwrap_or(Carried { slot: 0, hint });
    *out = [x.slot, x.hint, 0, 0, 0, 0, 0, 0];
    number(&r)
}

// Stores the hint of a call on a file, that which it was given where it is refused, and answers its number.
#[tactic(auto, unfolding(crate::specs::Words::hint_words))]
pub fn put_hint(out: &mut [u32; 8], hint: u32, r: Result<Carried, Cause>) -> u32
    ensures { let x = file_answer hint r in (result ≡ x.number) × (out.new ≡ hint_words x) }
{
    let x = r.unwrap_or(Carried { slot: 0, hint });
    *out = [x.hint, 0, 0, 0, 0, 0, 0, 0];
    number(&r)
}
