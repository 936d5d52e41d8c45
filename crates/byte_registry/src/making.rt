// Makes an empty registry on given bytes.
ghost use Rattle.std.specs.Prelude.{◌≡◌, ◌<◌, IfOk, IfErr};
ghost use Rattle.byte_registry.specs.Asked.{IsFormatted, IsUnformatted, failures_of};
ghost use Rattle.byte_registry.specs.Plans.{synced_plan};

use crate::asked::disk_of;
use byte_disk::ByteDisk;
use registry::Registry;
use std::alloc::Global;
use store::StoreRefusal;

/// Makes an empty registry on the bytes `disk`, and returns the disk. If this is refused, returns
/// the refusal and, if the bytes are whole sectors, the disk.
pub fn format(
    alloc: Global,
    disk: &[u8],
) -> Result<ByteDisk<'_>, (StoreRefusal, Option<ByteDisk<'_>>)>
    ensures ok { IfOk result (λ made. IsFormatted disk.now (synced_plan made)) }

    // The answer is S1 only if a call of the disk failed. On this disk, only a write or a sync can
    // fail, and only because memory was refused.
    ensures device { IfErr result (λ refused. refused.0 ≡ StoreRefusal.Device
        → 0 < failures_of refused.1) }
    ensures err { IfErr result (λ refused. IsUnformatted disk.now refused.0) }
{
    let disk = match disk_of(alloc, disk) {
        Ok(disk) => disk,
        Err(refused) => return Err(refused),
    };
    match Registry::format(alloc, disk) {
        Ok(registry) => Ok(registry.into_disk()),
        Err((refusal, disk)) => Err((refusal, Some(disk))),
    }
}
