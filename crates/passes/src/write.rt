ghost use Rattle.std.specs.Prelude.{◌≡◌, ◌*◌, ◌<◌, ◌^◌, All, AllPairs, OnOk, IsTrue};
ghost use Rattle.std.specs.List.{Contains};
ghost use Rattle.extents.specs.Extent.{IsApart, sector_count, places};
ghost use Rattle.sector_disk.specs.Disk.{sector_bytes, LeavesOnly, IsMixtureBut, SameBut};
ghost use Rattle.passes.specs.Calls.{AreCallsInRow};
ghost use Rattle.passes.specs.Bytes.{IsOnDisk, bytes_at, padded};

use crate::run::write_run;
use extents::Extent;
use sector_disk::{Disk, DiskFault, SECTOR_BYTES};

/// Writes bytes into the sectors of the extents, in their order, and zeros after the last byte.
/// Writes each sector once.
pub fn write_bytes<D: Disk>(disk: &mut D, extents: &[Extent], bytes: &[u8]) -> Result<(), DiskFault>
    requires inside { All (IsOnDisk (D.facts disk.old).sectors) extents.now }
    requires fits { (D.facts disk.old).sectors < 2 ^ 32 }
    requires apart { AllPairs IsApart extents.now }
    ensures calls { AreCallsInRow (sector_count extents.now)
        (D.facts disk.old) (D.facts disk.new) result }
    ensures any_moment { IsTrue (D.facts disk.old).honest
        → LeavesOnly (D.facts disk.old) (D.facts disk.new)
        (IsMixtureBut (Contains (places extents.now)) (D.facts disk.old)) }
    ensures now { IsTrue (D.facts disk.old).honest
        → OnOk result (SameBut (Contains (places extents.now))
        (D.facts disk.old).now (D.facts disk.new).now) }
    ensures written { IsTrue (D.facts disk.old).honest
        → OnOk result (bytes_at (D.facts disk.new).now (places extents.now)
        ≡ padded (sector_bytes * sector_count extents.now) bytes.now) }
{
    let mut rest = bytes;
    for extent in extents {
        let size = SECTOR_BYTES * extent.count as usize;
        let (content, after) = rest.split_at(rest.len().min(size));
        write_run(disk, *extent, content)?;
        rest = after;
    }
    Ok(())
}
