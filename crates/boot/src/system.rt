// What a call has once it is admitted: the layout and the system map, which keep the limits.
ghost use Rattle.std.specs.Prelude.{◌≡◌, true, false, ◌+◌, ◌*◌, ◌≤◌, ◌<◌, length, MatchResult};
ghost use Rattle.boot.specs.declared.cause.Cause.TheVariants.{Limits};
ghost use Rattle.boot.specs.Internal.{Laid, Apart};
ghost use Rattle.boot.specs.Limits.{limits};
ghost use Rattle.boot.specs.Layout.{layout_of, cluster_at};

use crate::cause::Cause;
use crate::geometry;
use crate::geometry::Geometry;
use crate::layout::Layout;

// Where the parts of a volume lie, and the system map. APART says whether they are known to lie apart, and WIDE whether the map is known to
// have a bit for each cluster (0: not known, 1: known): a function asks only for what it needs, and takes any value of the others.
// Kept: the volume's bytes and their length stay beside it, since what stores has the bytes by `&mut`: as a field, each call would have to
// promise that it is the same reference and the same system. Bounds of one number, as `k < y.count + 2` or `1 <= n`, stay clauses: a type
// for each would be opened wherever the number is counted with.
#[derive(Clone, Copy)]
pub struct Places<'a, const APART: usize, const WIDE: usize> {
    pub y: Layout,
    pub map: &'a [u8],
    pub ghost laid: { Laid y },
    pub ghost apart: { 1 ≤ APART → Apart y },
    pub ghost wide: { 1 ≤ WIDE → y.count ≤ 8 * length map.now },
}

// Both known: what a call has once it is admitted.
pub type System<'a> = Places<'a, 1, 1>;

// What every public call begins with: the layout and the map, or the cause that refuses it before all else.
pub fn admit(g: Geometry, len: usize, map: &[u8]) -> Result<System<'_>, Cause>
    ensures { MatchResult result (λ s. (s.y ≡ layout_of g len) × ((s.map.now ≡ map.now) × ((s.map.ref_ptr ≡ map.entry.ref_ptr) × (limits g len map.now ≡ true)))) (λ e. (e ≡ Limits) × (limits g len map.now ≡ false)) }
{
    match geometry::accepted(g, len, map) {
        Some(shaped) => Ok(Places {
            y: shaped.layout(len),
            map,
        }),
        None => Err(Cause::Limits),
    }
}

impl<const APART: usize, const WIDE: usize> Places<'_, APART, WIDE> {
    // The first byte of cluster k (Rust: `cluster_offset`).
    pub fn cluster_offset(&self, k: u32) -> usize
        requires { (2 ≤ k) × (k < self.now.y.count + 2) }
        ensures { (result ≡ cluster_at self.now.y k) × (result + self.now.y.size ≤ self.now.y.len) }
    {
        self.y.heap + ((k - 2) as usize) * self.y.size
    }
}
