// Makes a registry from a store of version 2, after admitting every file.
ghost use Rattle.std.specs.Prelude.{◌≡◌, ◌<◌, ◌⊎◌, [], sum_by, All, IsTrue, IsFalse, IfOk, IfErr};
ghost use Rattle.sector_disk.specs.Disk.{Mixture, LeavesOnly, AreCalls, AreCallsExactly};
ghost use Rattle.states.specs.State.{State};
ghost use Rattle.store.specs.Opened as opened;
ghost use Rattle.store.specs.Opened.{disk_after};
ghost use Rattle.requests.specs.Library.{IsLibrary};
ghost use Rattle.registry.specs.Opened.{IsAt};
ghost use Rattle.store.specs.IsRead.{file_sectors};

use crate::admit::admit_files;
use crate::registry::Registry;
use sector_disk::Disk;
use std::alloc::Global;
use store::{Store, StoreRefusal};

/// Reads and admits each file of `store`, and makes the store a registry. If a file can't be read
/// or isn't a library with its entry's name, returns a refusal and the disk.
pub(crate) fn admit_current<D: Disk>(
    alloc: Global,
    store: Store<D>,
) -> Result<Registry<D>, (StoreRefusal, D)>
    requires usable { IsFalse store.failed }
    requires unheld { store.held ≡ [] }
    ensures any_moment { IsTrue (D.facts store.disk).honest
        → LeavesOnly (D.facts store.disk) (D.facts (disk_after result))
        (Mixture (D.facts store.disk)) }
    ensures now { IsTrue (D.facts store.disk).honest
        → (D.facts (disk_after result)).now ≡ (D.facts store.disk).now }
    ensures log { IsTrue (D.facts store.disk).honest
        → (D.facts (disk_after result)).log ≡ (D.facts store.disk).log }
    ensures ok { (s : State) → opened.IsAt D.facts store s
        → IfOk result (λ registry. IsAt D.facts registry s) }
    ensures damaged { (s : State) → opened.IsAt D.facts store s
        → IfErr result (λ e. e.0 ≡ StoreRefusal.Damaged → All IsLibrary s.libraries → ⊥) }
    ensures kept { IfOk result (λ registry. (registry.root ≡ store.root)
        × (registry.entries ≡ store.entries) × IsFalse registry.failed) }
    ensures unheld { IfOk result (λ registry. registry.held ≡ []) }
    ensures refusals { IfErr result (λ e. (e.0 ≡ StoreRefusal.Device)
        ⊎ (e.0 ≡ StoreRefusal.Damaged) ⊎ (e.0 ≡ StoreRefusal.OutOfMemory)) }
    ensures device { IfErr result (λ e. e.0 ≡ StoreRefusal.Device
        → (D.facts store.disk).failures < (D.facts e.1).failures) }
    ensures calls { AreCalls (D.facts store.disk) (D.facts (disk_after result)) }
    ensures all_calls { IfOk result (λ registry. AreCallsExactly
        (sum_by file_sectors store.entries) (D.facts store.disk) (D.facts registry.disk)) }
{
    let mut store = store;
    match admit_files(alloc, &mut store) {
        Ok(()) => Ok(Registry { alloc, store }),
        Err(refusal) => Err((refusal, store.into_disk())),
    }
}
