// The geometry, by value, and the test of its limits (01: number 1).
ghost use Rattle.std.specs.Prelude.{◌≡◌, ◌+◌, ◌-◌, ◌*◌, ◌/◌, ◌^◌, ◌≤◌, ◌<◌, true, false, length, MatchOption};
ghost use Rattle.boot.specs.Geometry.{geometry_of, sector_size, cluster_size, bitmap_bytes, bitmap_clusters};
ghost use Rattle.boot.specs.Limits.{all, shape_tests, room_tests, map_tests, in_map, all_in_map, run_in_map, apart, second_bitmap, limits};
ghost use Rattle.boot.specs.Internal.{Shape};

// The boot sector's fields, and the first cluster of one bitmap per FAT. Offsets and lengths are in sectors.
#[derive(Clone, Copy)]
pub struct Geometry {
    pub sector_shift: u32,
    pub cluster_shift: u32,
    pub fat_offset: u32,
    pub fat_length: u32,
    pub number_of_fats: u32,
    pub active_fat: u32,
    pub cluster_heap_offset: u32,
    pub cluster_count: u32,
    pub root_cluster: u32,
    pub bitmap_0: u32,
    pub bitmap_1: u32,
}

// A geometry whose numbers by themselves keep the limits.
#[derive(Clone, Copy)]
pub struct Shaped {
    pub g: Geometry,
    pub ghost shape: { Shape g },
}

// The words of a geometry: one for each field.
pub const GEOMETRY_WORDS: usize = 11;

// The geometry, its fields in the struct's order.
pub fn geometry_of(w: &[u32; GEOMETRY_WORDS]) -> Geometry
    ensures { result ≡ geometry_of w.now }
{
    let [
        sector_shift,
        cluster_shift,
        fat_offset,
        fat_length,
        number_of_fats,
        active_fat,
        cluster_heap_offset,
        cluster_count,
        root_cluster,
        bitmap_0,
        bitmap_1,
    ] = *w;
    Geometry {
        sector_shift,
        cluster_shift,
        fat_offset,
        fat_length,
        number_of_fats,
        active_fat,
        cluster_heap_offset,
        cluster_count,
        root_cluster,
        bitmap_0,
        bitmap_1,
    }
}

impl Shaped {
    // Bytes of a sector.
    fn bytes_per_sector(self) -> u64
        ensures { (result ≡ sector_size self.g) × ((1 ≤ result) × (result ≤ 4096)) }
    {
        1u64 << self.g.sector_shift
    }

    // n sectors in bytes.
    pub fn in_sectors(self, n: u64) -> u64
        requires { n < 2 ^ 48 }
        ensures { (result ≡ n * sector_size self.g) × (result ≤ 4096 * n) }
    {
        n * self.bytes_per_sector()
    }

    // Bytes of a cluster.
    pub fn cluster_size(self) -> u64
        ensures { (result ≡ cluster_size self.g) × ((1 ≤ result) × (result ≤ 32768)) }
    {
        1u64 << (self.g.sector_shift + self.g.cluster_shift)
    }

    // n clusters in bytes.
    pub fn in_clusters(self, n: u32) -> u64
        ensures { (result ≡ n * cluster_size self.g) × (result ≤ 32768 * n) }
    {
        u64::from(n) * self.cluster_size()
    }

    // Clusters of one bitmap.
    pub fn bitmap_clusters(self) -> u32
        ensures { (result ≡ bitmap_clusters self.g) × (result ≤ 65536) }
    {
        let size = self.cluster_size();
        let bytes = (u64::from(self.g.cluster_count) + 7) / 8;
        ((bytes + (size - 1)) / size) as u32
    }

    // Each FAT holds its entries, the heap stands past the FATs, and the volume holds the heap.
    #[tactic(auto, unfolding(crate::specs::Limits::room_tests))]
    fn room_ok(self, len: usize) -> bool
        ensures { result ≡ all (room_tests self.g len) }
    {
        let fats = u64::from(self.g.number_of_fats) * u64::from(self.g.fat_length);
        4 * (u64::from(self.g.cluster_count) + 2) <= self.in_sectors(u64::from(self.g.fat_length))
            && u64::from(self.g.fat_offset) + fats <= u64::from(self.g.cluster_heap_offset)
            && self.in_sectors(u64::from(self.g.cluster_heap_offset))
                + self.in_clusters(self.g.cluster_count)
                <= len as u64
            && len <= 16777216
    }

    // Whether a second bitmap, where there is one, keeps the limits.
    #[tactic(auto, unfolding(crate::specs::Limits::second_bitmap))]
    fn second_ok(self, map: &[u8], n: u32) -> bool
        requires { (length map.now ≡ bitmap_bytes self.g.cluster_count) × ((n ≡ bitmap_clusters self.g) × (n ≤ 65536)) }
        ensures { result ≡ second_bitmap self.g map.now }
    {
        self.g.number_of_fats == 1
            || (run_in_map(map, self.g.cluster_count, self.g.bitmap_1, n)
                && runs_apart(self.g.bitmap_0, self.g.bitmap_1, n))
    }

    // Whether the system map's length and the bitmaps keep the limits.
    #[tactic(auto, unfolding(crate::specs::Limits::map_tests))]
    fn maps_ok(self, map: &[u8]) -> bool
        ensures { result ≡ all (map_tests self.g map.now) }
    {
        let n = self.bitmap_clusters();
        map.len() == ((self.g.cluster_count + 7) / 8) as usize
            && run_in_map(map, self.g.cluster_count, self.g.bitmap_0, n)
            && self.second_ok(map, n)
    }
}

// The limits of the numbers by themselves.
#[tactic(auto, unfolding(crate::specs::Limits::shape_tests))]
fn shape_ok(g: Geometry) -> bool
    ensures { result ≡ all (shape_tests g) }
{
    9 <= g.sector_shift
        && g.sector_shift <= 12
        && g.cluster_shift <= 15 - g.sector_shift
        && 24 <= g.fat_offset
        && 1 <= g.number_of_fats
        && g.number_of_fats <= 2
        && g.active_fat < g.number_of_fats
        && 1 <= g.cluster_count
        && g.cluster_count <= 32768
}

// Cluster k's bit in a slice laid out like the bitmap.
pub fn in_map(map: &[u8], k: u32) -> bool
    requires { (2 ≤ k) × ((k - 2) / 8 < length map.now) }
    ensures { result ≡ in_map map.now k }
{
    let at = ((k - 2) / 8) as usize;
    primitives::bits::bit_test(map[at], ((k - 2) % 8) as u8)
}

// Whether the n clusters from first are all in the system map.
fn all_in_map(map: &[u8], first: u32, n: u32) -> bool
    requires { (2 ≤ first) × ((first + n ≤ 2 + 8 * length map.now) × (first + n ≤ 65536)) }
    ensures { result ≡ all_in_map map.now first n }
{
    (first..first + n).all(|k| in_map(map, k))
}

// Whether the n clusters from first lie in a heap of count clusters and in the system map.
#[tactic(auto, unfolding(crate::specs::Limits::run_in_map))]
fn run_in_map(map: &[u8], count: u32, first: u32, n: u32) -> bool
    requires { (length map.now ≡ bitmap_bytes count) × ((count ≤ 32768) × (n ≤ 65536)) }
    ensures { result ≡ run_in_map map.now count first n }
{
    2 <= first && n <= count + 2 && first <= count + 2 - n && all_in_map(map, first, n)
}

// Whether two runs of n clusters, from a and from b, share none.
#[tactic(auto, unfolding(crate::specs::Limits::apart))]
fn runs_apart(a: u32, b: u32, n: u32) -> bool
    requires { n ≤ 65536 }
    ensures { result ≡ apart a b n }
{
    let (a, b, n) = (u64::from(a), u64::from(b), u64::from(n));
    a + n <= b || b + n <= a
}

// The geometry, where it, a volume of len bytes and a system map keep the limits.
#[tactic(auto, unfolding(crate::specs::Limits::limits))]
pub fn accepted(g: Geometry, len: usize, map: &[u8]) -> Option<Shaped>
    ensures { MatchOption result (limits g len map.now ≡ false) (λ s. (s.g ≡ g) × (limits g len map.now ≡ true)) }
{
    if !shape_ok(g) {
        return None;
    }
    let shaped = Shaped { g };
    if shaped.room_ok(len) && shaped.maps_ok(map) {
        Some(shaped)
    } else {
        None
    }
}

// Whether a geometry, a volume of len bytes and a system map keep the limits: where not, the number is 1.
pub fn validate(g: Geometry, len: usize, map: &[u8]) -> bool
    ensures { result ≡ limits g len map.now }
{
    accepted(g, len, map).is_some()
}
