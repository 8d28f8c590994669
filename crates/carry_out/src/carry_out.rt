// One call of the claim over lists, with its arguments.
ghost use Rattle.std.specs.Prelude.{◌≡◌};
ghost use Rattle.file.specs.Outcome.{file_answer};
ghost use Rattle.write.specs.Calls.{step};
ghost use Rattle.carry_out.specs.CallOf.{call_of};

use boot::cause::Cause;
use boot::geometry::Geometry;
use entry_set::stamp::Stamps;
use file::answer::Carried;

// The four calls that change files, each with its own arguments.
#[derive(Clone, Copy)]
pub enum FileCall<'a> {
    NewFile {
        name: &'a [u16],
        attributes: u16,
        hash: u16,
    },
    Write {
        slot: u32,
        offset: u64,
        data: &'a [u8],
    },
    SetLength {
        slot: u32,
        len: u64,
    },
    Remove {
        slot: u32,
    },
}

// Carries out one call. All are given the stamps and the hint: new file reads every stamp, write and set length the modified one, remove none.
// Kept: a match, since each case calls another function with other arguments.
#[tactic(auto, unfolding(crate::specs::CallOf::call_of, write::specs::Calls::step))]
pub fn carry_out(
    vol: &mut [u8],
    map: &[u8],
    g: Geometry,
    call: FileCall<'_>,
    t: Stamps,
    hint: u32,
) -> Result<Carried, Cause>
    ensures { let o = step g map.now vol.old (call_of call.entry t hint) in (file_answer hint result ≡ o.answer) × (vol.new ≡ o.volume) }
{
    match call {
        FileCall::NewFile {
            name,
            attributes,
            hash,
        } => write_file::new_file::make_in(vol, map, g, name, attributes, hash, t, hint),
        FileCall::Write { slot, offset, data } => {
            write_file::write::write_into(vol, map, g, slot, offset, data, t.modified, hint)
        }
        FileCall::SetLength { slot, len } => {
            write_length::set_length::set_length(vol, map, g, slot, len, t.modified, hint)
        }
        FileCall::Remove { slot } => write_remove::remove::remove(vol, map, g, slot, hint),
    }
}
