// The entries of a directory gone through one after the other, each cluster entered once.
ghost use Rattle.std.specs.Prelude.{◌≡◌, not, ◌+◌, ◌-◌, ◌*◌, ◌/◌, ◌≤◌, ◌<◌, eqb, length};
ghost use Rattle.primitives.specs.Bits.{bit_of};
ghost use Rattle.metadata.specs.Cluster.{cluster_byte};
ghost use Rattle.stream.specs.Internal.{after};
ghost use Rattle.search.specs.Internal.{past_failing};
ghost use Rattle.directory.specs.Entries.{entry_count, in_use, before_end};
ghost use Rattle.directory.specs.Internal.{next_entry, slot_entry, past_used, room_for, bytes, fat_of, bytes_at, nth_entry};

use crate::directory::OpenDirectory;
use boot::system::Places;

// An entry: its cluster, and its first byte there.
#[derive(Clone, Copy)]
pub struct Cursor {
    pub cluster: u32,
    pub at: usize,
}

// An entry by its slot, and where it stands.
#[derive(Clone, Copy)]
struct Tail {
    slot: u32,
    entry: Cursor,
}

// Where a new set goes: its slot, and the clusters that the directory grows by for it.
#[derive(Clone, Copy)]
pub struct Room {
    pub slot: u32,
    pub clusters: u32,
}

// One byte of a cluster.
pub fn byte_at<const APART: usize, const WIDE: usize>(
    vol: &[u8],
    sys: &Places<'_, APART, WIDE>,
    k: u32,
    at: usize,
) -> u8
    requires { (length vol.now ≡ sys.now.y.len) × ((2 ≤ k) × ((k < sys.now.y.count + 2) × (at < sys.now.y.size))) }
    ensures { result ≡ cluster_byte sys.now.y vol.now k at }
{
    let start = sys.cluster_offset(k);
    vol[start + at]
}

// Whether none of the first n entries of a part has type 0. One entry a turn takes twice the time of two.
fn none_ends(part: &[u8], n: u32) -> bool
    requires { (32 * n ≤ length part.now) × (n ≤ 1024) }
    ensures { result ≡ before_end part.now n }
{
    let mut pairs = part[..32 * (n as usize)].chunks_exact(64);
    let last = pairs.remainder();
    pairs.all(|e| e[0] != 0 && e[32] != 0) && (last.is_empty() || last[0] != 0)
}

// Windows of n entries of a part, from entry `first` on, passed one after the other while the last entry of each is in use: the entry
// where that stops.
fn used_windows(part: &[u8], first: u32, n: u32) -> u32
    requires { (length part.now ≤ 32768) × ((first ≤ 1024) × ((1 ≤ n) × (n ≤ 19))) }
    ensures { result ≡ past_used part.now n first }
{
    let last = 32 * ((n - 1) as usize);
    let mut at = 32 * (first as usize);
    // Kept: the answer is the entry where it stops; an iterator over the windows would be counted, and its count made that entry again.
    while at + last < part.len() && primitives::bits::bit_test(part[at + last], 7) {
        at += last + 32;
    }
    (at / 32) as u32
}

impl<const APART: usize, const WIDE: usize> OpenDirectory<'_, APART, WIDE> {
    // One byte of a cluster of the volume that the directory is opened on.
    pub fn byte_at(&self, k: u32, at: usize) -> u8
        requires { (2 ≤ k) × ((k < self.now.sys.now.y.count + 2) × (at < self.now.sys.now.y.size)) }
        ensures { result ≡ cluster_byte self.now.sys.now.y self.now.vol.now k at }
    {
        byte_at(self.vol, self.sys, k, at)
    }

    // Whether an entry is in use.
    fn in_use(&self, e: Cursor) -> bool
        requires { (2 ≤ e.cluster) × ((e.cluster < self.now.sys.now.y.count + 2) × (e.at + 32 ≤ self.now.sys.now.y.size)) }
        ensures { result ≡ eqb (bit_of (cluster_byte self.now.sys.now.y self.now.vol.now e.cluster e.at) 7) 1 }
    {
        primitives::bits::bit_test(byte_at(self.vol, self.sys, e.cluster, e.at), 7)
    }

    // The cluster after one.
    pub fn next_cluster(&self, k: u32) -> u32
        requires { k < self.now.sys.now.y.count + 2 }
        ensures { let d = self.now in result ≡ after (fat_of d) d.allocation.no_fat_chain k }
    {
        stream::walk::next_cluster(self.vol, self.sys, self.allocation.no_fat_chain, k)
    }

    // The entry after one.
    fn advance(&self, e: Cursor) -> Cursor
        requires { (e.cluster < self.now.sys.now.y.count + 2) × (e.at + 32 ≤ self.now.sys.now.y.size) }
        ensures { let d = self.now in result ≡ next_entry d.sys.now.y (fat_of d) d.allocation.no_fat_chain e }
    {
        if e.at + 32 < self.sys.y.size {
            return Cursor {
                cluster: e.cluster,
                at: e.at + 32,
            };
        }
        let next = self.next_cluster(e.cluster);
        Cursor {
            cluster: next,
            at: 0,
        }
    }

    // Whether none of the first n entries of a cluster has type 0. The cluster's part of the volume is handed on.
    fn none_ends_in(&self, k: u32, n: u32) -> bool
        requires { (2 ≤ k) × ((k < self.now.sys.now.y.count + 2) × (32 * n ≤ self.now.sys.now.y.size)) }
        ensures { result ≡ before_end (bytes_at self.now k) n }
    {
        let a = self.sys.cluster_offset(k);
        let e = a + self.sys.y.size;
        none_ends(&self.vol[a..e], n)
    }

    // Windows of n entries of a cluster, passed as those of a part are. The cluster's part of the volume is handed on.
    fn used_windows_in(&self, k: u32, first: u32, n: u32) -> u32
        requires { (2 ≤ k) × ((k < self.now.sys.now.y.count + 2) × ((32 * first ≤ self.now.sys.now.y.size) × ((1 ≤ n) × (n ≤ 19)))) }
        ensures { result ≡ past_used (bytes_at self.now k) n first }
    {
        let a = self.sys.cluster_offset(k);
        let e = a + self.sys.y.size;
        used_windows(&self.vol[a..e], first, n)
    }
}

impl<const WIDE: usize> OpenDirectory<'_, 1, WIDE> {
    // How many entries a directory has.
    pub fn entry_count(&self) -> u32
        ensures { (result ≡ entry_count (bytes self.now)) × (result ≤ 524288) }
    {
        self.allocation.count * ((self.sys.y.size / 32) as u32)
    }

    // The entry of a slot, or none where an entry of type 0 stands before it.
    pub fn slot_entry(&self, slot: u32) -> Option<Cursor>
        requires { slot < entry_count (bytes self.now) }
        ensures { let d = self.now in result ≡ slot_entry d.sys.now.y d.vol.now d.allocation slot }
    {
        let per = (self.sys.y.size / 32) as u32;
        let mut k = self.allocation.first;
        for _ in 0..slot / per {
            if !self.none_ends_in(k, per) {
                return None;
            }
            k = self.next_cluster(k);
        }
        let rest = slot % per;
        if !self.none_ends_in(k, rest) {
            return None;
        }
        Some(Cursor {
            cluster: k,
            at: 32 * (rest as usize),
        })
    }

    // The entry m entries after entry k, which e is.
    fn skip(&self, e: Cursor, k: u32, m: u32) -> Cursor
        requires { (e ≡ nth_entry self.now k) × ((m ≤ 19) × (k + m < entry_count (bytes self.now))) }
        ensures { result ≡ nth_entry self.now (k + m) }
    {
        let per = (self.sys.y.size / 32) as u32;
        let mut cluster = e.cluster;
        let mut more = (e.at / 32) as u32 + m;
        // Kept: it goes from cluster to cluster, two at most, and has what is left as it goes; a `for` wants count and rest by `/` and `%` first.
        while per <= more {
            cluster = self.next_cluster(cluster);
            more -= per;
        }
        Cursor {
            cluster,
            at: 32 * (more as usize),
        }
    }

    // The last in use of the n entries from entry base, which e is: one past it, or base where none is.
    fn last_used(&self, e: Cursor, base: u32, n: u32) -> Tail
        requires { (e ≡ nth_entry self.now base) × (base + n ≤ entry_count (bytes self.now)) }
        ensures { (result.slot ≡ past_failing (λ i. not (in_use (bytes self.now) i)) base n) × (result.entry ≡ nth_entry self.now result.slot) }
    {
        let mut at = e;
        let mut tail = Tail {
            slot: base,
            entry: e,
        };
        for k in base..base + n {
            let used = self.in_use(at);
            at = self.advance(at);
            if used {
                tail = Tail {
                    slot: k + 1,
                    entry: at,
                };
            }
        }
        tail
    }

    // The same, where the last of the n entries is looked at first.
    fn past_used(&self, e: Cursor, base: u32, n: u32) -> Tail
        requires { (e ≡ nth_entry self.now base) × ((1 ≤ n) × ((n ≤ 19) × (base + n ≤ entry_count (bytes self.now)))) }
        ensures { (result.slot ≡ past_failing (λ i. not (in_use (bytes self.now) i)) base n) × (result.entry ≡ nth_entry self.now result.slot) }
    {
        let last = self.skip(e, base, n - 1);
        if self.in_use(last) {
            return Tail {
                slot: base + n,
                entry: self.advance(last),
            };
        }
        self.last_used(e, base, n - 1)
    }

    // Windows of n entries from entry base on, which e is, passed in e's cluster.
    fn pass_used(&self, e: Cursor, base: u32, n: u32) -> Tail
        requires { (e ≡ nth_entry self.now base) × ((1 ≤ n) × ((n ≤ 19) × (base < entry_count (bytes self.now)))) }
        ensures { (result.slot ≡ base + (past_used (bytes_at self.now e.cluster) n (e.at / 32) - e.at / 32)) × (result.entry ≡ nth_entry self.now result.slot) }
    {
        let from = (e.at / 32) as u32;
        let to = self.used_windows_in(e.cluster, from, n);
        let slot = base + (to - from);
        let at = 32 * (to as usize);
        if at < self.sys.y.size {
            return Tail {
                slot,
                entry: Cursor {
                    cluster: e.cluster,
                    at,
                },
            };
        }
        let cluster = self.next_cluster(e.cluster);
        Tail {
            slot,
            entry: Cursor { cluster, at: 0 },
        }
    }

    // Where a set of so many entries goes (Rust: `free_run`): the lowest sequence of entries not in use, the directory grown where it
    // ends too soon. A window of so many entries is looked at from its last one, those inside a cluster in the cluster's part; none that
    // starts before base is free.
    pub fn free_run(&self, need: u32) -> Room
        requires { (1 ≤ need) × (need ≤ 19) }
        ensures { result ≡ room_for self.now.sys.now.y.size (bytes self.now) need }
    {
        let total = self.entry_count();
        let mut e = Cursor {
            cluster: self.allocation.first,
            at: 0,
        };
        let mut base: u32 = 0;
        // Kept: each turn goes on past what it found in use, so no range counts the turns.
        while need <= total - base {
            let p = self.pass_used(e, base, need);
            if total - p.slot < need {
                base = p.slot;
                e = p.entry;
            } else {
                let t = self.past_used(p.entry, p.slot, need);
                if t.slot == p.slot {
                    return Room {
                        slot: p.slot,
                        clusters: 0,
                    };
                }
                base = t.slot;
                e = t.entry;
            }
        }
        let t = self.last_used(e, base, total - base);
        let missing = u64::from(t.slot + need - total);
        Room {
            slot: t.slot,
            clusters: entry_set::entry::clusters_for(self.sys.y.size, 32 * missing) as u32,
        }
    }
}
