// Makes a registry from a store of version 1, after admitting every file.
ghost use Rattle.std.specs.Prelude.{◌≡◌, ◌<◌, length, slice_index_or, sum_by};
ghost use Rattle.std.specs.Prelude.{All, IsFalse, IfErr, OnOk};
ghost use Rattle.sector_disk.specs.Disk.{AreCallsExactly};
ghost use Rattle.roots.specs.declared.version.Version.TheVariants.{One};
ghost use Rattle.states.specs.State.{State};
ghost use Rattle.store.specs.declared.placed_entry.PlacedEntry.{PlacedEntry};
ghost use Rattle.store.specs.Opened.{IsOldAt};
ghost use Rattle.store.specs.Stands.{no_library};
ghost use Rattle.requests.specs.Library.{IsLibrary};
ghost use Rattle.store.specs.IsRead.{IsReadBy, file_sectors};
ghost use Rattle.registry.specs.inside.Reading.{IsReadRefusal};
ghost use Rattle.registry.specs.inside.Relisting.{EndsRelisting};

use crate::admit::see_library;
use crate::registry::Registry;
use sector_disk::Disk;
use std::alloc::Global;
use store::{OldStore, StoreRefusal};

/// Reads the file at `position`, tests that it is a library with its entry's name, and frees its
/// bytes.
fn admit_old_at<D: Disk>(
    alloc: Global,
    store: &mut OldStore<D>,
    position: usize,
) -> Result<(), StoreRefusal>
    requires { position < length store.old.entries }
    ensures read { IsReadBy One D.facts store.old store.new }
    ensures ok { (s : State) → IsOldAt D.facts store.old s
        → OnOk result (IsLibrary (slice_index_or s.libraries position no_library)) }
    ensures damaged { (s : State) → IsOldAt D.facts store.old s
        → IfErr result (λ e. e ≡ StoreRefusal.Damaged
        → IsLibrary (slice_index_or s.libraries position no_library) → ⊥) }
    ensures refusals { IfErr result (IsReadRefusal D.facts store.old store.new) }
    ensures all_calls { (d : PlacedEntry) → OnOk result (AreCallsExactly
        (file_sectors (slice_index_or store.old.entries position d))
        (D.facts store.old.disk) (D.facts store.new.disk)) }
{
    let bytes = store.read_blob(alloc, position)?;
    see_library(alloc, store.name(position), &bytes)?;
    Ok(())
}

/// Reads each file once, tests that it is a library with its entry's name, and frees its bytes
/// before it reads the next one.
fn admit_old_files<D: Disk>(alloc: Global, store: &mut OldStore<D>) -> Result<(), StoreRefusal>
    ensures read { IsReadBy One D.facts store.old store.new }
    ensures ok { (s : State) → IsOldAt D.facts store.old s
        → OnOk result (All IsLibrary s.libraries) }
    ensures damaged { (s : State) → IsOldAt D.facts store.old s
        → IfErr result (λ e. e ≡ StoreRefusal.Damaged
        → All IsLibrary s.libraries → ⊥) }
    ensures refusals { IfErr result (IsReadRefusal D.facts store.old store.new) }
    ensures all_calls { OnOk result (AreCallsExactly (sum_by file_sectors store.old.entries)
        (D.facts store.old.disk) (D.facts store.new.disk)) }
{
    for position in 0..store.count() {
        admit_old_at(alloc, store, position)?;
    }
    Ok(())
}

/// Reads and admits each file of a store of version 1, and then makes the store a registry of
/// version 2. Writes only the catalogues and the root. If a file can't be read or isn't a library
/// with its entry's name, or if the store refuses, returns a refusal and the disk.
pub(crate) fn admit_old<D: Disk>(
    alloc: Global,
    store: OldStore<D>,
) -> Result<Registry<D>, (StoreRefusal, D)>
    requires usable { IsFalse store.failed }
    ensures { EndsRelisting D.facts store result }
{
    let mut store = store;
    match admit_old_files(alloc, &mut store) {
        Ok(()) => match store.commit() {
            Ok(store) => Ok(Registry { alloc, store }),
            Err(refused) => Err(refused),
        },
        Err(refusal) => Err((refusal, store.into_disk())),
    }
}
