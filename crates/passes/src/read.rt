ghost use Rattle.std.specs.Prelude.{◌≡◌, ◌+◌, ◌*◌, ◌<◌, ◌≤◌, ◌^◌, length, All, OnOk, IsTrue};
ghost use Rattle.std.specs.List.{range_with_len};
ghost use Rattle.extents.specs.Extent.{sector_count, places};
ghost use Rattle.sector_disk.specs.Disk.{sector_bytes, sector, IsCall, IsRead};
ghost use Rattle.passes.specs.Calls.{AreCallsInRow, AreReads};
ghost use Rattle.passes.specs.Bytes.{IsOnDisk, bytes_at};

use extents::Extent;
use sector_disk::{Disk, DiskFault, SECTOR_BYTES};

/// Reads sector `at` into its part of a longer buffer.
fn read_sector<D: Disk>(disk: &mut D, at: u32, into: &mut [u8]) -> Result<(), DiskFault>
    requires room { at < (D.facts disk.old).sectors }
    requires size { length into.old ≡ sector_bytes }
    ensures calls { IsCall (D.facts disk.old) (D.facts disk.new) result }
    ensures honest { IsTrue (D.facts disk.old).honest
        → IsRead (D.facts disk.old) (D.facts disk.new) at into.new result }
    ensures size { length into.new ≡ sector_bytes }
{
    match into.as_mut_array::<SECTOR_BYTES>() {
        Some(content) => disk.read(at, content),
        None => unreachable!(),
    }
}

/// Reads the sectors of an extent into `into`, in their order.
fn read_run<D: Disk>(disk: &mut D, extent: Extent, into: &mut [u8]) -> Result<(), DiskFault>
    requires room { extent.start + extent.count ≤ (D.facts disk.old).sectors }
    requires fits { (D.facts disk.old).sectors < 2 ^ 32 }
    requires size { length into.old ≡ sector_bytes * extent.count }
    ensures calls { AreCallsInRow extent.count (D.facts disk.old) (D.facts disk.new) result }
    ensures same { IsTrue (D.facts disk.old).honest
        → AreReads (D.facts disk.old) (D.facts disk.new) }
    ensures read { IsTrue (D.facts disk.old).honest
        → OnOk result (into.new
        ≡ bytes_at (D.facts disk.old).now (range_with_len extent.start extent.count)) }
    ensures size { length into.new ≡ length into.old }
{
    for done in 0..extent.count {
        let from = SECTOR_BYTES * done as usize;
        read_sector(
            disk,
            extent.start + done,
            &mut into[from..from + SECTOR_BYTES],
        )?;
    }
    Ok(())
}

/// Reads the bytes of the extents' sectors into `into`, in the order of the extents. Reads each
/// sector once.
pub fn read_bytes<D: Disk>(
    disk: &mut D,
    extents: &[Extent],
    into: &mut [u8],
) -> Result<(), DiskFault>
    requires inside { All (IsOnDisk (D.facts disk.old).sectors) extents.now }
    requires fits { (D.facts disk.old).sectors < 2 ^ 32 }
    requires size { length into.old ≡ sector_bytes * sector_count extents.now }
    ensures calls { AreCallsInRow (sector_count extents.now)
        (D.facts disk.old) (D.facts disk.new) result }
    ensures same { IsTrue (D.facts disk.old).honest
        → AreReads (D.facts disk.old) (D.facts disk.new) }
    ensures read { IsTrue (D.facts disk.old).honest
        → OnOk result (into.new ≡ bytes_at (D.facts disk.old).now (places extents.now)) }
    ensures size { length into.new ≡ length into.old }
{
    let mut from = 0;
    for extent in extents {
        let end = from + SECTOR_BYTES * extent.count as usize;
        read_run(disk, *extent, &mut into[from..end])?;
        from = end;
    }
    Ok(())
}
