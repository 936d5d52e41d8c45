ghost use Rattle.std.specs.Prelude.{◌≡◌, ◌<◌, length, All, OnOk, IsTrue};
ghost use Rattle.std.specs.List.{Contains};
ghost use Rattle.extents.specs.Extent.{AreDistinct};
ghost use Rattle.sector_disk.specs.Disk.{LeavesOnly, IsMixtureBut, SameBut};
ghost use Rattle.passes.specs.Calls.{AreCallsInRow};
ghost use Rattle.passes.specs.Singles.{single_places, HoldsSingles};

use sector_disk::{Disk, DiskFault, SECTOR_BYTES};

/// A single sector, and the content that it gets.
#[derive(Clone, Copy)]
pub struct SingleSector {
    /// The number of the sector.
    pub at: u32,
    /// All bytes of the sector.
    pub content: [u8; SECTOR_BYTES],
}

/// Writes single sectors, in their order, each of them once.
pub(crate) fn write_singles<D: Disk>(
    disk: &mut D,
    singles: &[SingleSector],
) -> Result<(), DiskFault>
    requires room { All (λ single. single.at < (D.facts disk.old).sectors) singles.now }
    requires once { AreDistinct (single_places singles.now) }
    ensures calls { AreCallsInRow (length singles.now)
        (D.facts disk.old) (D.facts disk.new) result }
    ensures any_moment { IsTrue (D.facts disk.old).honest
        → LeavesOnly (D.facts disk.old) (D.facts disk.new)
        (IsMixtureBut (Contains (single_places singles.now)) (D.facts disk.old)) }
    ensures now { IsTrue (D.facts disk.old).honest
        → OnOk result (SameBut (Contains (single_places singles.now))
        (D.facts disk.old).now (D.facts disk.new).now) }
    ensures written { IsTrue (D.facts disk.old).honest
        → OnOk result (HoldsSingles (D.facts disk.new).now singles.now) }
{
    for single in singles {
        disk.write(single.at, &single.content)?;
    }
    Ok(())
}
