ghost use Rattle.std.specs.Prelude.{◌≡◌, ◌+◌, ◌*◌, ◌<◌, ◌≤◌, ◌^◌, ◌++◌, length, set, All, AllPairs};
ghost use Rattle.std.specs.Prelude.{OnOk, IsTrue};
ghost use Rattle.std.specs.List.{Contains};
ghost use Rattle.extents.specs.Extent.{IsApart, AreDistinct, sector_count, places};
ghost use Rattle.sector_disk.specs.Disk.{sector_bytes, IsSynced};
ghost use Rattle.sector_disk.specs.Disk.{LeavesOnly, IsMixtureBut, IsMixtureOrSet, SameBut};
ghost use Rattle.passes.specs.Calls.{AreCallsInRow};
ghost use Rattle.passes.specs.Bytes.{IsOnDisk, bytes_at, padded};
ghost use Rattle.passes.specs.Singles.{single_places, HoldsSingles};

use crate::single::{SingleSector, write_singles};
use crate::write::write_bytes;
use extents::Extent;
use sector_disk::{Disk, DiskFault, SECTOR_BYTES};

/// Returns the number of single sectors at the front of the list that lie before a file's extents.
fn count_before(extents: &[Extent], singles: &[SingleSector]) -> usize
    ensures { result ≤ length singles.now }
{
    match extents.first() {
        Some(first) => singles
            .iter()
            .take_while(|single| single.at < first.start)
            .count(),
        None => 0,
    }
}

/// Writes a file's bytes into its extents, and writes each single sector. Writes the single sectors
/// in their order. Writes those at the front of the list that lie before the file's first extent
/// before the bytes, so that adjacent sectors are written one after the other. Doesn't sync.
pub fn write_unsynced<D: Disk>(
    disk: &mut D,
    extents: &[Extent],
    bytes: &[u8],
    singles: &[SingleSector],
) -> Result<(), DiskFault>
    requires inside { All (IsOnDisk (D.facts disk.old).sectors) extents.now }
    requires fits { (D.facts disk.old).sectors < 2 ^ 32 }
    requires apart { AllPairs IsApart extents.now }
    requires room { All (λ single. single.at < (D.facts disk.old).sectors) singles.now }
    requires once { AreDistinct (single_places singles.now) }
    requires elsewhere { (k : _) → Contains (single_places singles.now) k
        → Contains (places extents.now) k → ⊥ }
    ensures calls { AreCallsInRow (sector_count extents.now + length singles.now)
        (D.facts disk.old) (D.facts disk.new) result }

    // A stop at any moment changes only the written sectors.
    ensures any_moment { IsTrue (D.facts disk.old).honest
        → LeavesOnly (D.facts disk.old) (D.facts disk.new)
        (IsMixtureBut (Contains (single_places singles.now ++ places extents.now))
        (D.facts disk.old)) }

    // Reads of all other sectors return the same contents as before.
    ensures now { IsTrue (D.facts disk.old).honest → OnOk result
        (SameBut (Contains (single_places singles.now ++ places extents.now))
        (D.facts disk.old).now (D.facts disk.new).now) }
    ensures written { IsTrue (D.facts disk.old).honest
        → OnOk result (bytes_at (D.facts disk.new).now (places extents.now)
        ≡ padded (sector_bytes * sector_count extents.now) bytes.now) }
    ensures singles { IsTrue (D.facts disk.old).honest
        → OnOk result (HoldsSingles (D.facts disk.new).now singles.now) }
{
    let (front, back) = singles.split_at(count_before(extents, singles));
    write_singles(disk, front)?;
    write_bytes(disk, extents, bytes)?;
    write_singles(disk, back)
}

/// Makes the first pass of a change: writes a file's bytes and single sectors in the same way as
/// `write_unsynced`, and syncs.
pub fn stage<D: Disk>(
    disk: &mut D,
    extents: &[Extent],
    bytes: &[u8],
    singles: &[SingleSector],
) -> Result<(), DiskFault>
    requires inside { All (IsOnDisk (D.facts disk.old).sectors) extents.now }
    requires fits { (D.facts disk.old).sectors < 2 ^ 32 }
    requires apart { AllPairs IsApart extents.now }
    requires room { All (λ single. single.at < (D.facts disk.old).sectors) singles.now }
    requires once { AreDistinct (single_places singles.now) }
    requires elsewhere { (k : _) → Contains (single_places singles.now) k
        → Contains (places extents.now) k → ⊥ }
    ensures calls { AreCallsInRow (sector_count extents.now + length singles.now + 1)
        (D.facts disk.old) (D.facts disk.new) result }

    // A stop at any moment changes only the staged sectors.
    ensures any_moment { IsTrue (D.facts disk.old).honest
        → LeavesOnly (D.facts disk.old) (D.facts disk.new)
        (IsMixtureBut (Contains (single_places singles.now ++ places extents.now))
        (D.facts disk.old)) }

    // Reads of all other sectors return the same contents as before.
    ensures now { IsTrue (D.facts disk.old).honest → OnOk result
        (SameBut (Contains (single_places singles.now ++ places extents.now))
        (D.facts disk.old).now (D.facts disk.new).now) }
    ensures written { IsTrue (D.facts disk.old).honest
        → OnOk result (bytes_at (D.facts disk.new).now (places extents.now)
        ≡ padded (sector_bytes * sector_count extents.now) bytes.now) }
    ensures singles { IsTrue (D.facts disk.old).honest
        → OnOk result (HoldsSingles (D.facts disk.new).now singles.now) }
    ensures synced { IsTrue (D.facts disk.old).honest → OnOk result (IsSynced (D.facts disk.new)) }
{
    write_unsynced(disk, extents, bytes, singles)?;
    disk.sync()
}

/// Makes the second pass of a change: writes the sector `root` to sector number `at`, and syncs.
pub fn switch_root<D: Disk>(
    disk: &mut D,
    at: u32,
    root: &[u8; SECTOR_BYTES],
) -> Result<(), DiskFault>
    requires room { at < (D.facts disk.old).sectors }
    ensures calls { AreCallsInRow 2 (D.facts disk.old) (D.facts disk.new) result }

    // A stop at any moment leaves contents that a stop could leave before the call, or the same
    // contents with the new content of sector `at`.
    ensures any_moment { IsTrue (D.facts disk.old).honest
        → LeavesOnly (D.facts disk.old) (D.facts disk.new)
        (IsMixtureOrSet (D.facts disk.old) at root.now) }
    ensures now { IsTrue (D.facts disk.old).honest
        → OnOk result ((D.facts disk.new).now ≡ set (D.facts disk.old).now at root.now) }
    ensures synced { IsTrue (D.facts disk.old).honest → OnOk result (IsSynced (D.facts disk.new)) }
{
    disk.write(at, root)?;
    disk.sync()
}
