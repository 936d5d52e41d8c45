// Makes and upgrades the registry on any disk.

ghost use Rattle.commands.specs.OnDisk.{FormatEnds, UpgradeEnds};

use crate::disk_answer::write_disk_answer;
use program_parts::Status;
use registry::Registry;
use sector_disk::Disk;
use std::alloc::Global;
use std::io::Write;
use store::StoreRefusal;

/// Makes an empty registry on `disk`, and returns the disk. `write_disk_answer` reports the answer.
/// A caller that made a file for the disk gives the file its final name first, and then reports the
/// answer.
pub fn run_format<D: Disk>(alloc: Global, disk: D) -> (Result<(), StoreRefusal>, D)
    ensures { FormatEnds D.facts disk result.0 result.1 }
{
    match Registry::format(alloc, disk) {
        Ok(registry) => (Ok(()), registry.into_disk()),
        Err((refusal, disk)) => (Err(refusal), disk),
    }
}

/// Makes a registry of version 2 from the registry on a disk of version 1 or 2, and writes `ok`, or
/// the line of the refusal. Returns the status and the disk. If the output fails, the status is
/// `Failed`, although the registry was upgraded.
pub fn run_upgrade<D: Disk, O: Write>(alloc: Global, disk: D, output: &mut O) -> (Status, D)
    ensures { UpgradeEnds D.facts disk (O.contents output.old) (O.contents output.new)
        result.0 result.1 }
{
    match Registry::upgrade(alloc, disk) {
        Ok(registry) => {
            let disk = registry.into_disk();
            (write_disk_answer(Ok(()), output), disk)
        }
        Err((refusal, disk)) => (write_disk_answer(Err(refusal), output), disk),
    }
}
