ghost use Rattle.std.specs.Prelude.{◌≡◌, ◌+◌, ◌-◌, ◌*◌, ◌<◌, ◌≤◌, ◌^◌, ◌++◌, length, replicate};
ghost use Rattle.std.specs.Prelude.{OnOk, IsTrue};
ghost use Rattle.std.specs.List.{range_with_len};
ghost use Rattle.extents.specs.Extent.{Has};
ghost use Rattle.sector_disk.specs.Disk.{sector_bytes, IsCall, IsWrite};
ghost use Rattle.sector_disk.specs.Disk.{LeavesOnly, IsMixtureBut, SameBut};
ghost use Rattle.passes.specs.Calls.{AreCallsInRow};
ghost use Rattle.passes.specs.Bytes.{bytes_at, padded};

use extents::Extent;
use sector_disk::{Disk, DiskFault, SECTOR_BYTES};

/// Writes at most one sector of bytes, followed by zeros up to the end of the sector. Doesn't copy
/// the bytes of a whole sector.
fn write_sector<D: Disk>(disk: &mut D, at: u32, bytes: &[u8]) -> Result<(), DiskFault>
    requires room { at < (D.facts disk.old).sectors }
    requires fits { length bytes.now ≤ sector_bytes }
    ensures calls { IsCall (D.facts disk.old) (D.facts disk.new) result }
    ensures honest { IsTrue (D.facts disk.old).honest
        → IsWrite (D.facts disk.old) (D.facts disk.new) at (padded sector_bytes bytes.now) result }
{
    if let Some((whole, _)) = bytes.split_first_chunk::<SECTOR_BYTES>() {
        return disk.write(at, whole);
    }
    disk.write(at, &with_zeros(bytes))
}

/// Returns a sector that begins with `bytes`, followed by zeros.
fn with_zeros(bytes: &[u8]) -> [u8; SECTOR_BYTES]
    requires { length bytes.now ≤ sector_bytes }
    ensures { result ≡ bytes.now ++ replicate (sector_bytes - length bytes.now) 0 }
{
    let mut sector = [0; SECTOR_BYTES];
    sector[..bytes.len()].copy_from_slice(bytes);
    sector
}

/// Writes bytes into the sectors of an extent, in their order, and zeros after the last byte.
pub(crate) fn write_run<D: Disk>(
    disk: &mut D,
    extent: Extent,
    bytes: &[u8],
) -> Result<(), DiskFault>
    requires room { extent.start + extent.count ≤ (D.facts disk.old).sectors }
    requires fits { (D.facts disk.old).sectors < 2 ^ 32 }
    ensures calls { AreCallsInRow extent.count (D.facts disk.old) (D.facts disk.new) result }
    ensures any_moment { IsTrue (D.facts disk.old).honest
        → LeavesOnly (D.facts disk.old) (D.facts disk.new)
        (IsMixtureBut (Has extent) (D.facts disk.old)) }
    ensures now { IsTrue (D.facts disk.old).honest
        → OnOk result (SameBut (Has extent) (D.facts disk.old).now (D.facts disk.new).now) }
    ensures written { IsTrue (D.facts disk.old).honest
        → OnOk result (bytes_at (D.facts disk.new).now (range_with_len extent.start extent.count)
        ≡ padded (sector_bytes * extent.count) bytes.now) }
{
    let mut rest = bytes;
    for done in 0..extent.count {
        let (content, after) = rest.split_at(rest.len().min(SECTOR_BYTES));
        write_sector(disk, extent.start + done, content)?;
        rest = after;
    }
    Ok(())
}
