// The bytes of a stream: a part of them read, stored, or filled with zeros, by one walk that goes through each cluster once.
ghost use Rattle.std.specs.Prelude.{◌≡◌, true, ◌+◌, ◌-◌, ◌*◌, ◌/◌, ◌≤◌, ◌<◌, min, length, take, drop, replicate};
ghost use Rattle.tables.specs.Lists.{every};
ghost use Rattle.boot.specs.Layout.{cluster_at, in_heap};
ghost use Rattle.metadata.specs.Fat.{fat_entry};
ghost use Rattle.metadata.specs.Cluster.{put_bytes};
ghost use Rattle.stream.specs.Internal.{along, reached, place_at, Known};
ghost use Rattle.stream.specs.Internal.{byte_walk, piece_of, past_piece};
ghost use Rattle.stream.specs.Bytes.{bytes_of, store_at};
ghost use Rattle.std.specs.Option.{MatchOption};

use crate::allocation::Allocation;
use boot::system::Places;

// A cluster of a stream that is known, and how many steps from the first one lead to it.
#[derive(Clone, Copy)]
pub struct Place {
    pub cluster: u32,
    pub steps: u32,
}

// The cluster that so many steps along a stream lead to; in a run they are one sum.
pub fn seek<const APART: usize, const WIDE: usize>(
    vol: &[u8],
    sys: &Places<'_, APART, WIDE>,
    run: bool,
    first: u32,
    steps: u32,
) -> u32
    requires { (length vol.now ≡ sys.now.y.len) × (every (in_heap sys.now.y.count) (along (fat_entry sys.now.y vol.now) run first steps) ≡ true) }
    ensures { result ≡ reached (fat_entry sys.now.y vol.now) run first steps }
{
    if run {
        return first + steps;
    }
    let mut k = first;
    for _ in 0..steps {
        k = metadata::fat::fat_entry(vol, sys, k);
    }
    k
}

// Stores src in cluster k, from its byte `at` on, and past its end in those that follow it in the heap.
pub fn put_piece<const APART: usize, const WIDE: usize>(
    vol: &mut [u8],
    sys: &Places<'_, APART, WIDE>,
    k: u32,
    at: usize,
    src: &[u8],
)
    requires { (length vol.old ≡ sys.now.y.len) × ((2 ≤ k) × ((k < sys.now.y.count + 2) × (cluster_at sys.now.y k + at + length src.now ≤ sys.now.y.len))) }
    ensures { vol.new ≡ put_bytes sys.now.y vol.old k at src.now }
{
    let start = sys.cluster_offset(k) + at;
    primitives::slices::copy_in(vol, start, src);
}

// Stores n zeros in cluster k, from its byte `at` on, and past its end in those that follow it in the heap.
pub fn put_zeros<const APART: usize, const WIDE: usize>(
    vol: &mut [u8],
    sys: &Places<'_, APART, WIDE>,
    k: u32,
    at: usize,
    n: usize,
)
    requires { (length vol.old ≡ sys.now.y.len) × ((2 ≤ k) × ((k < sys.now.y.count + 2) × (cluster_at sys.now.y k + at + n ≤ sys.now.y.len))) }
    ensures { vol.new ≡ put_bytes sys.now.y vol.old k at (replicate n 0) }
{
    let start = sys.cluster_offset(k);
    primitives::slices::fill_zero(vol, start + at, n);
}

// Fills dst with the bytes from byte `at` of cluster k on and past its end from those that follow it in the heap.
// Out of line, as `copy_in` of primitives is.
#[inline(never)]
fn get_piece<const APART: usize, const WIDE: usize>(
    vol: &[u8],
    sys: &Places<'_, APART, WIDE>,
    k: u32,
    at: usize,
    dst: &mut [u8],
)
    requires { (length vol.now ≡ sys.now.y.len) × ((2 ≤ k) × ((k < sys.now.y.count + 2) × (cluster_at sys.now.y k + at + length dst.old ≤ sys.now.y.len))) }
    ensures { dst.new ≡ take (length dst.old) (drop (cluster_at sys.now.y k + at) vol.now) }
{
    let start = sys.cluster_offset(k) + at;
    dst.copy_from_slice(&vol[start..start + dst.len()]);
}

// Where a walk over bytes of a stream stands: the cluster of the next byte and its place in it, and which of them it is, up to their end.
#[derive(Clone, Copy)]
struct ByteWalk {
    run: bool,
    cluster: u32,
    at: usize,
    from: usize,
    end: usize,
}

// Bytes of a walk that stand one behind the other: len of them, the `from`-th first, from byte `at` of a cluster on.
#[derive(Clone, Copy)]
struct Piece {
    cluster: u32,
    at: usize,
    from: usize,
    len: usize,
}

impl ByteWalk {
    // Before n bytes of a stream, from its byte `at` on. Nothing before the place that is known is gone through again.
    fn new<const APART: usize, const WIDE: usize>(
        vol: &[u8],
        sys: &Places<'_, APART, WIDE>,
        a: Allocation,
        known: Place,
        at: usize,
        n: usize,
    ) -> ByteWalk
        requires { (length vol.now ≡ sys.now.y.len) × ((every (in_heap sys.now.y.count) (along (fat_entry sys.now.y vol.now) a.no_fat_chain a.first a.count) ≡ true) × ((at + n ≤ a.count * sys.now.y.size) × Known sys.now.y vol.now a known at)) }
        ensures { result ≡ byte_walk sys.now.y vol.now a at n }
    {
        let steps = (at / sys.y.size) as u32;
        ByteWalk {
            run: a.no_fat_chain,
            cluster: seek(vol, sys, a.no_fat_chain, known.cluster, steps - known.steps),
            at: at % sys.y.size,
            from: 0,
            end: n,
        }
    }

    // The next piece: what is left in the cluster, or all of it in a run, whose clusters are one piece of the volume.
    fn next<const APART: usize, const WIDE: usize>(
        &mut self,
        vol: &[u8],
        sys: &Places<'_, APART, WIDE>,
    ) -> Option<Piece>
        requires { (length vol.now ≡ sys.now.y.len) × (self.old.from < self.old.end → (self.old.at < sys.now.y.size) × (self.old.cluster < sys.now.y.count + 2)) }
        ensures { MatchOption result ((self.old.end ≤ self.old.from) × (self.new ≡ self.old)) (λ p. (self.old.from < self.old.end) × ((p ≡ piece_of sys.now.y self.old) × (self.new ≡ past_piece sys.now.y vol.now self.old))) }
    {
        if self.end <= self.from {
            return None;
        }
        let more = self.end - self.from;
        let len = if self.run {
            more
        } else {
            (sys.y.size - self.at).min(more)
        };
        let piece = Piece {
            cluster: self.cluster,
            at: self.at,
            from: self.from,
            len,
        };
        self.cluster = crate::walk::next_cluster(vol, sys, self.run, self.cluster);
        self.at = 0;
        self.from += len;
        Some(piece)
    }
}

// Stores src in a stream, from its byte `at` on.
pub fn store<const WIDE: usize>(
    vol: &mut [u8],
    sys: &Places<'_, 1, WIDE>,
    a: Allocation,
    known: Place,
    at: usize,
    src: &[u8],
)
    requires { (length vol.old ≡ sys.now.y.len) × ((every (in_heap sys.now.y.count) (along (fat_entry sys.now.y vol.old) a.no_fat_chain a.first a.count) ≡ true) × ((at + length src.now ≤ a.count * sys.now.y.size) × (Known sys.now.y vol.old a known at × (1 ≤ length src.now)))) }
    ensures { vol.new ≡ store_at sys.now.y vol.old (along (fat_entry sys.now.y vol.old) a.no_fat_chain a.first a.count) at src.now }
{
    let mut walk = ByteWalk::new(vol, sys, a, known, at, src.len());
    // Kept: each turn lends the volume to `next` anew, since it stores there; an iterator would keep it lent.
    while let Some(piece) = walk.next(vol, sys) {
        let bytes = &src[piece.from..piece.from + piece.len];
        put_piece(vol, sys, piece.cluster, piece.at, bytes);
    }
}

// Fills n bytes of a stream with zeros, from its byte `at` on, and answers the place of the last one.
pub fn fill<const WIDE: usize>(
    vol: &mut [u8],
    sys: &Places<'_, 1, WIDE>,
    a: Allocation,
    known: Place,
    at: usize,
    n: usize,
) -> Place
    requires { (length vol.old ≡ sys.now.y.len) × ((every (in_heap sys.now.y.count) (along (fat_entry sys.now.y vol.old) a.no_fat_chain a.first a.count) ≡ true) × ((at + n ≤ a.count * sys.now.y.size) × (Known sys.now.y vol.old a known at × (1 ≤ n)))) }
    ensures { (vol.new ≡ store_at sys.now.y vol.old (along (fat_entry sys.now.y vol.old) a.no_fat_chain a.first a.count) at (replicate n 0)) × (result ≡ place_at sys.now.y vol.old a ((at + n - 1) / sys.now.y.size)) }
{
    let mut walk = ByteWalk::new(vol, sys, a, known, at, n);
    let mut last = walk.cluster;
    // Kept: as in `store`.
    while let Some(piece) = walk.next(vol, sys) {
        put_zeros(vol, sys, piece.cluster, piece.at, piece.len);
        last = piece.cluster;
    }
    let steps = ((at + n - 1) / sys.y.size) as u32;
    // A run was one piece, and its last cluster is one sum.
    if a.no_fat_chain {
        last = a.first + steps;
    }
    Place {
        cluster: last,
        steps,
    }
}

// Fills dst with the bytes of a stream from its byte `at` on.
pub fn read<const APART: usize, const WIDE: usize>(
    vol: &[u8],
    sys: &Places<'_, APART, WIDE>,
    a: Allocation,
    known: Place,
    at: usize,
    dst: &mut [u8],
)
    requires { (length vol.now ≡ sys.now.y.len) × ((every (in_heap sys.now.y.count) (along (fat_entry sys.now.y vol.now) a.no_fat_chain a.first a.count) ≡ true) × ((at + length dst.old ≤ a.count * sys.now.y.size) × Known sys.now.y vol.now a known at)) }
    ensures { dst.new ≡ take (length dst.old) (drop at (bytes_of sys.now.y vol.now (along (fat_entry sys.now.y vol.now) a.no_fat_chain a.first a.count))) }
{
    let mut walk = ByteWalk::new(vol, sys, a, known, at, dst.len());
    // Kept: as in `store`, whose walk it is.
    while let Some(piece) = walk.next(vol, sys) {
        let to = &mut dst[piece.from..piece.from + piece.len];
        get_piece(vol, sys, piece.cluster, piece.at, to);
    }
}
