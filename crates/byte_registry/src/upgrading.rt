// Makes a registry of version 2 from one of version 1 on given bytes.
ghost use Rattle.std.specs.Prelude.{◌≡◌, ◌<◌, ◌↔◌, IsTrue, List, IfOk, IfErr};
ghost use Rattle.byte_disk.specs.Bytes.{sectors_in};
ghost use Rattle.roots.specs.declared.version.Version.{Version as RootVersion};
ghost use Rattle.roots.specs.declared.version.Version.TheVariants.{Two};
ghost use Rattle.states.specs.State.{State};
ghost use Rattle.store.specs.declared.placed_entry.PlacedEntry.{PlacedEntry};
ghost use Rattle.store.specs.Stands.{StandsBy};
ghost use Rattle.byte_registry.specs.Asked.{IsUpgraded, IsUnupgraded, failures_of};
ghost use Rattle.byte_registry.specs.Plans.{synced_plan};

use crate::asked::disk_of;
use crate::generation::current_root;
use byte_disk::ByteDisk;
use registry::Registry;
use roots::{Root, Version};
use std::alloc::Global;
use store::StoreRefusal;

/// Returns whether the current root on the bytes `disk` is of version 2.
fn is_current(disk: &[u8]) -> bool
    ensures { (version : RootVersion) → (root : Root) → (entries : List PlacedEntry) → (s : State)
        → StandsBy version (sectors_in disk.now) root entries s
        → IsTrue result ↔ (version ≡ Two) }
{
    match current_root(disk) {
        Some(root) => match root.version() {
            Version::One => false,
            Version::Two => true,
        },
        None => false,
    }
}

/// Upgrades the registry on the bytes `disk` to version 2, and returns the disk. If the registry is
/// already of version 2, writes nothing. If the upgrade is refused, returns the refusal and, if the
/// bytes are whole sectors, the disk.
pub fn upgrade(
    alloc: Global,
    disk: &[u8],
) -> Result<ByteDisk<'_>, (StoreRefusal, Option<ByteDisk<'_>>)>
    ensures ok { IfOk result (λ made. (s : State) × IsUpgraded disk.now s (synced_plan made)) }

    // The answer is S1 only if a call of the disk failed. On this disk, only a write or a sync can
    // fail, and only because memory was refused.
    ensures device { IfErr result (λ refused. refused.0 ≡ StoreRefusal.Device
        → 0 < failures_of refused.1) }
    ensures err { IfErr result (λ refused. IsUnupgraded disk.now refused.0) }
{
    let given = match disk_of(alloc, disk) {
        Ok(given) => given,
        Err(refused) => return Err(refused),
    };
    match Registry::upgrade(alloc, given) {
        Ok(registry) => {
            let made = registry.into_disk();
            if is_current(disk) {
                return disk_of(alloc, disk);
            }
            Ok(made)
        }
        Err((refusal, disk)) => Err((refusal, Some(disk))),
    }
}
