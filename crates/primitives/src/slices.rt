// Runs of bytes stored into a slice.
ghost use Rattle.std.specs.Prelude.{◌≡◌, ◌+◌, ◌≤◌, length, replicate};
ghost use Rattle.primitives.specs.Splice.{splice};

// Stores src into dst from `at`.
// Out of line: where the compiler sees that the two lie apart it calls `memcpy`, and the library needs no more than `memmove` and `memset`.
#[inline(never)]
pub fn copy_in(dst: &mut [u8], at: usize, src: &[u8])
    requires { at + length src.now ≤ length dst.old }
    ensures { dst.new ≡ splice dst.old at src.now }
{
    dst[at..at + src.len()].copy_from_slice(src);
}

// Stores n zeros into dst from `at`.
pub fn fill_zero(dst: &mut [u8], at: usize, n: usize)
    requires { at + n ≤ length dst.old }
    ensures { dst.new ≡ splice dst.old at (replicate n 0) }
{
    dst[at..at + n].fill(0);
}
