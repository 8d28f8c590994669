// The file at a slot of the root as a call finds it (Rust: `resolve`, `open_for_write`).
ghost use Rattle.std.specs.Prelude.{◌≡◌, length, replicate};
ghost use Rattle.directory.specs.Directory.{root_record};
ghost use Rattle.directory.specs.Internal.{file_opened};
ghost use Rattle.file.specs.Internal.{target, target_set};

use boot::cause::Cause;
use boot::system::System;
use directory::open_file::OpenFile;

// Tests the hint, then opens the root and the file for a call on its bytes from an offset on, and copies the file's set.
pub fn open_target(
    vol: &[u8],
    sys: &System<'_>,
    root: u32,
    slot: u32,
    offset: u64,
    hint: u32,
    set: &mut [u8; 608],
) -> Result<OpenFile, Cause>
    requires { (length vol.now ≡ sys.now.y.len) × (set.old ≡ replicate 608 0) }
    ensures { (file_opened result ≡ target sys.now.y vol.now sys.now.map.now (root_record sys.now.y vol.now root) slot offset hint) × (set.new ≡ target_set sys.now.y vol.now (root_record sys.now.y vol.now root) slot hint) }
{
    if !boot::layout::in_heap(sys.y.count, hint) {
        return Err(Cause::OutsideHeap);
    }
    directory::open_file::open_in_root(vol, sys, root, slot, offset, set)
}
