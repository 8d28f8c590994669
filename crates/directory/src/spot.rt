// Where a set stands in a directory: the clusters from that of its slot on.
ghost use Rattle.std.specs.Prelude.{◌≡◌, true, ◌*◌, ◌<◌, get_or};
ghost use Rattle.tables.specs.Lists.{every};
ghost use Rattle.boot.specs.Layout.{in_heap};
ghost use Rattle.directory.specs.Internal.{spot_of, clusters_from, slot_place};

use crate::directory::OpenDirectory;
use crate::entries::Cursor;

// The clusters that a set reaches, three at most, 0 where there is none, and the byte in the first one.
// Kept: 0 is no cluster's number, and the definition lists the three as a stream's clusters are listed.
#[derive(Clone, Copy)]
pub struct Spot {
    pub first: u32,
    pub second: u32,
    pub third: u32,
    pub at: usize,
}

impl<const APART: usize, const WIDE: usize> OpenDirectory<'_, APART, WIDE> {
    // The cluster after k in the stream, which has so many from k on, 0 where k is the last one.
    fn cluster_after(&self, k: u32, left: u32) -> u32
        requires { every (in_heap self.now.sys.now.y.count) (clusters_from self.now k left) ≡ true }
        ensures { result ≡ get_or (clusters_from self.now k left) 1 0 }
    {
        if 1 < left {
            return self.next_cluster(k);
        }
        0
    }

    // Where the set from a slot on stands, whose entry is known.
    pub fn spot_from(&self, slot: u32, e: Cursor) -> Spot
        requires { (32 * slot < self.now.allocation.count * self.now.sys.now.y.size) × (e ≡ slot_place self.now slot) }
        ensures { let d = self.now in result ≡ spot_of d.sys.now.y d.vol.now d.allocation slot }
    {
        let left = self.allocation.count - ((32 * (slot as usize)) / self.sys.y.size) as u32;
        let second = self.cluster_after(e.cluster, left);
        let third = self.cluster_after(second, left - 1);
        Spot {
            first: e.cluster,
            second,
            third,
            at: e.at,
        }
    }

    // Where the set from a slot on stands.
    pub fn locate(&self, slot: u32) -> Spot
        requires { 32 * slot < self.now.allocation.count * self.now.sys.now.y.size }
        ensures { let d = self.now in result ≡ spot_of d.sys.now.y d.vol.now d.allocation slot }
    {
        let place = 32 * (slot as usize);
        let first = stream::bytes::seek(
            self.vol,
            self.sys,
            self.allocation.no_fat_chain,
            self.allocation.first,
            (place / self.sys.y.size) as u32,
        );
        let e = Cursor {
            cluster: first,
            at: place % self.sys.y.size,
        };
        self.spot_from(slot, e)
    }
}
