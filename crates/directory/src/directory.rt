// A directory opened; the root opened: its chain is walked once for its record and what refuses it.
ghost use Rattle.std.specs.Prelude.{◌≡◌, length};
ghost use Rattle.stream.specs.Stream.{number_of, stream_of};

use boot::cause::Cause;
use boot::system::Places;
use stream::allocation::Allocation;

// A directory opened: its record, whose stream reads, on the volume's bytes. APART and WIDE say what is known of its places (`Places`).
#[derive(Clone, Copy)]
pub struct OpenDirectory<'a, const APART: usize, const WIDE: usize> {
    pub vol: &'a [u8],
    pub sys: &'a Places<'a, APART, WIDE>,
    pub allocation: Allocation,
    pub ghost long: { length vol.now ≡ sys.now.y.len },
    pub ghost reads: { number_of (stream_of sys.now.y vol.now allocation) ≡ 0 },
}

impl<'a, const APART: usize> OpenDirectory<'a, APART, 1> {
    ghost use Rattle.std.specs.Result.{IfOk};
    ghost use Rattle.directory.specs.Internal.{open_root, directory_opened};

    // The root, its chain walked once (Rust: `root_dir`).
    pub fn root_dir(
        vol: &'a [u8],
        sys: &'a Places<'a, APART, 1>,
        root: u32,
    ) -> Result<OpenDirectory<'a, APART, 1>, Cause>
        requires { length vol.now ≡ sys.now.y.len }
        ensures { (directory_opened result ≡ open_root sys.now.y vol.now root) × IfOk result (λ d. (d.vol.now ≡ vol.now) × (d.sys.now ≡ sys.now)) }
    {
        if !boot::layout::in_heap(sys.y.count, root) {
            return Err(Cause::OutsideHeap);
        }
        let w = stream::walk::fat_chain(vol, sys, true, root, 0)?;
        stream::walk::walk_cause(w, w.last, w.count)?;
        if w.clear {
            let allocation = Allocation {
                first: root,
                last: w.last,
                count: w.count,
                no_fat_chain: false,
            };
            Ok(OpenDirectory {
                vol,
                sys,
                allocation,
            })
        } else {
            Err(Cause::SystemCluster)
        }
    }
}
