// Computes how much of a store's disk is unused, and the greatest length of a byte string that can
// be put.
ghost use Rattle.std.specs.Prelude.{◌≡◌, ◌+◌, ◌-◌, ◌*◌, ◌≤◌, min};
ghost use Rattle.sector_disk.specs.Disk.{sector_bytes};
ghost use Rattle.extents.specs.Extent.{sector_count};
ghost use Rattle.extents.specs.Layout.{unused_count};
ghost use Rattle.extents.specs.Longest.{longest_runs};
ghost use Rattle.roots.specs.Limits.{most_catalogues, most_file_bytes};

use crate::listed::catalogues;
use crate::store::Store;
use extents::Layout;
use roots::{MOST_FILE_BYTES, MOST_LIBRARIES, catalogues_for};
use sector_disk::{Disk, SECTOR_BYTES};

/// How much of a store's disk is unused.
#[derive(Clone, Copy, PartialEq, Eq)]
pub struct UnusedSpace {
    /// The number of unused sectors: those that neither the state nor a held byte string uses.
    pub sectors: u32,
    /// The number of these sectors that are free by the count of S7 (Full): all except those that
    /// the next change's catalogues take.
    pub free: usize,
    /// The number of runs of unused sectors.
    pub runs: usize,
    /// The greatest length, in bytes, of a byte string that a put under a new name would accept
    /// now, or 0 if it would accept none. The length of the name doesn't matter.
    pub largest: u32,
}

/// Returns the maximum number of sectors that bytes may take beside their entry and `catalogues`
/// catalogues, if `spare` sectors have to stay unused.
fn most_sectors(layout: &Layout, catalogues: usize, spare: usize) -> usize
    requires few { catalogues ≤ most_catalogues }
    requires spare { spare ≤ most_catalogues }
    ensures { result ≡ min (unused_count layout.now - (1 + catalogues + spare))
        (sector_count (longest_runs layout.now)) }
{
    let unused = (layout.free_count() as usize).saturating_sub(1 + catalogues + spare);
    unused.min(layout.longest_count() as usize)
}

/// Returns the greatest length in bytes of a byte string that takes at most `sectors` sectors.
fn most_bytes(sectors: usize) -> u32
    ensures { result ≡ min (sector_bytes * sectors) most_file_bytes }
{
    let bytes = SECTOR_BYTES.saturating_mul(sectors);
    bytes.min(MOST_FILE_BYTES as usize) as u32
}

impl<D: Disk> Store<D> {
    ghost use Rattle.std.specs.Prelude.{◌⊎◌, ◌↔◌, ℕ, List, None, IsTrue, length};
    ghost use Rattle.extents.specs.Runs.{unused_runs};
    ghost use Rattle.states.specs.Cost.{catalogues_for, free};
    ghost use Rattle.states.specs.State.{State};
    ghost use Rattle.store.specs.Names.{IsFileSize};
    ghost use Rattle.store.specs.Opened.{IsAt};
    ghost use Rattle.store.specs.Holds.{layout_in_use, room_of};
    ghost use Rattle.store.specs.Step.{longest_unused, refusal_of_new};

    /// Returns the greatest length in bytes of a byte string that a put under a new name would
    /// accept now, or 0 if it would accept none.
    fn largest(&self) -> u32
        ensures form { (result ≡ 0) ⊎ IsFileSize result }
        ensures failed { IsTrue self.now.failed → result ≡ 0 }
        ensures state { (s : State) → IsAt D.facts self.now s
            → (bytes : List ℕ) → IsFileSize (length bytes)
            → (length bytes ≤ result)
            ↔ (refusal_of_new (room_of self.now) (longest_unused self.now) s bytes ≡ None) }
    {
        if self.kept.failed {
            return 0;
        }
        if self.kept.entries.len() >= MOST_LIBRARIES {
            return 0;
        }
        if self.kept.root.generation == u64::MAX {
            return 0;
        }
        let count = catalogues_for(self.kept.entries.len() + 1);
        let spare = count - catalogues(&self.kept.root).len();
        let sectors = most_sectors(&self.kept.layout, count, spare);
        most_bytes(sectors)
    }

    /// Returns how much of the disk is unused. Makes one pass over the unused runs, allocates
    /// nothing, and makes no call of the disk.
    pub fn unused_space(&self) -> UnusedSpace
        ensures sectors { result.sectors ≡ unused_count (layout_in_use self.now) }
        ensures runs { result.runs ≡ length (unused_runs (layout_in_use self.now)) }

        // All unused sectors are free, except those that the next change's catalogues take. These
        // are the same numbers as those that the definitions of the store's state have.
        ensures free { result.free ≡ result.sectors - catalogues_for (length self.now.entries) }
        ensures state { (s : State) → IsAt D.facts self.now s
            → (result.free ≡ free (room_of self.now) s)
            × (result.sectors ≡ free (room_of self.now) s + catalogues_for (length s.libraries)) }

        // The tests of a put under a new name accept bytes if and only if their length is at most
        // `largest`. If `largest` isn't 0, it is a length that the tests accept.
        ensures largest { (s : State) → IsAt D.facts self.now s
            → (bytes : List ℕ) → IsFileSize (length bytes)
            → (length bytes ≤ result.largest)
            ↔ (refusal_of_new (room_of self.now) (longest_unused self.now) s bytes ≡ None) }
        ensures form { (result.largest ≡ 0) ⊎ IsFileSize result.largest }

        // After a failed call, no put is accepted.
        ensures failed { IsTrue self.now.failed → result.largest ≡ 0 }
    {
        let sectors = self.kept.layout.free_count();
        let catalogues = catalogues_for(self.kept.entries.len());
        UnusedSpace {
            sectors,
            free: (sectors as usize).saturating_sub(catalogues),
            runs: self.kept.layout.run_count(),
            largest: self.largest(),
        }
    }
}
