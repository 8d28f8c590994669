// Where the parts of a volume lie, in bytes: computed once from a geometry that keeps the limits.
ghost use Rattle.std.specs.Prelude.{◌≡◌, ◌+◌, ◌-◌, ◌*◌, ◌≤◌, ◌<◌};
ghost use Rattle.boot.specs.Internal.{Accepted};
ghost use Rattle.boot.specs.Layout.{fat_start, cluster_start, bitmap_first, layout_of, in_heap, in_run, is_bitmap_cluster};

use crate::geometry::{Geometry, Shaped};

// Whether there are two FATs; the first byte of the active FAT, of the first and the second one, and of their bitmaps in the same
// order; the first cluster of each bitmap and how many clusters a bitmap spans; the first byte of the heap; the bytes of a cluster;
// the clusters; the bytes of the volume. With one FAT the second places are the first.
#[derive(Clone, Copy)]
pub struct Layout {
    pub two: bool,
    pub fat: usize,
    pub fat0: usize,
    pub fat1: usize,
    pub bitmap: usize,
    pub bitmap0: usize,
    pub bitmap1: usize,
    pub first0: u32,
    pub first1: u32,
    pub span: u32,
    pub heap: usize,
    pub size: usize,
    pub count: u32,
    pub len: usize,
}

// i FATs of n sectors.
fn fats(i: u32, n: u32) -> u64
    requires { i < 2 }
    ensures { (result ≡ i * n) × (result ≤ n) }
{
    u64::from(i) * u64::from(n)
}

// The first cluster of FAT i's bitmap.
#[tactic(auto, unfolding(crate::specs::Layout::bitmap_first))]
fn bitmap_first(g: Geometry, i: u32) -> u32
    ensures { result ≡ bitmap_first g i }
{
    if i == 0 { g.bitmap_0 } else { g.bitmap_1 }
}

impl Shaped {
    // The first byte of FAT i.
    fn fat_start(self, i: u32) -> usize
        requires { i < 2 }
        ensures { result ≡ fat_start self.g i }
    {
        self.in_sectors(u64::from(self.g.fat_offset) + fats(i, self.g.fat_length)) as usize
    }

    // The first byte of cluster k.
    fn cluster_start(self, k: u32) -> usize
        requires { 2 ≤ k }
        ensures { result ≡ cluster_start self.g k }
    {
        (self.in_sectors(u64::from(self.g.cluster_heap_offset)) + self.in_clusters(k - 2)) as usize
    }

    // The layout in a volume of len bytes.
    pub fn layout(self, len: usize) -> Layout
        requires { Accepted self.g len }
        ensures { result ≡ layout_of self.g len }
    {
        let g = self.g;
        let last = g.number_of_fats - 1;
        Layout {
            two: g.number_of_fats == 2,
            fat: self.fat_start(g.active_fat),
            fat0: self.fat_start(0),
            fat1: self.fat_start(last),
            bitmap: self.cluster_start(bitmap_first(g, g.active_fat)),
            bitmap0: self.cluster_start(g.bitmap_0),
            bitmap1: self.cluster_start(bitmap_first(g, last)),
            first0: g.bitmap_0,
            first1: bitmap_first(g, last),
            span: self.bitmap_clusters(),
            heap: self.cluster_start(2),
            size: self.cluster_size() as usize,
            count: g.cluster_count,
            len,
        }
    }
}

// Whether k is one of the n clusters from first.
#[tactic(auto, unfolding(crate::specs::Layout::in_run))]
fn in_run(first: u32, n: u32, k: u32) -> bool
    ensures { result ≡ in_run first n k }
{
    first <= k && k - first < n
}

// Whether k is a cluster of a heap of count clusters.
pub fn in_heap(count: u32, k: u32) -> bool
    ensures { result ≡ in_heap count k }
{
    in_run(2, count, k)
}

// Whether k is a cluster of a bitmap, of the active FAT's or of the other's.
#[tactic(auto, unfolding(crate::specs::Layout::is_bitmap_cluster))]
pub fn is_bitmap_cluster(y: Layout, k: u32) -> bool
    ensures { result ≡ is_bitmap_cluster y k }
{
    in_run(y.first0, y.span, k) || in_run(y.first1, y.span, k)
}
