// Admits the files of a store, one after the other.
ghost use Rattle.std.specs.Prelude.{◌≡◌, ◌⊎◌, ◌<◌, true, false, None, All, IfOk, IfErr, OnOk};
ghost use Rattle.std.specs.Prelude.{length, slice_index_or, sum_by};
ghost use Rattle.hash_check.specs.FileRefusal.{first_file_refusal};
ghost use Rattle.sector_disk.specs.Disk.{AreCallsExactly};
ghost use Rattle.store.specs.declared.placed_entry.PlacedEntry.{PlacedEntry};
ghost use Rattle.store.specs.Opened.{IsAt};
ghost use Rattle.store.specs.Stands.{no_library};
ghost use Rattle.states.specs.State.{State};
ghost use Rattle.requests.specs.Library.{IsLibrary};
ghost use Rattle.store.specs.IsRead.{IsRead, file_sectors};
ghost use Rattle.registry.specs.inside.Reading.{IsReadRefusal};

use hash_check::{Admitted, ReadRefusal};
use sector_disk::Disk;
use std::alloc::Global;
use store::{Store, StoreRefusal};

/// Returns whether an admitted object is a library with the name `name`.
fn is_library(object: &Admitted<'_>, name: &[u8]) -> bool
    requires { first_file_refusal object.now ≡ None }
    ensures yes { result ≡ true → IsLibrary (record { name = name.now; bytes = object.now }) }
    ensures no { result ≡ false → IsLibrary (record { name = name.now; bytes = object.now }) → ⊥ }
{
    match object.library_name() {
        Ok(soname) => soname == name,
        Err(_) => false,
    }
}

/// Tests that `bytes` are a library with the name `name`. Returns S5 (Damaged) if they aren't, and
/// S11 (OutOfMemory) if memory is refused.
pub(crate) fn see_library(alloc: Global, name: &[u8], bytes: &[u8]) -> Result<(), StoreRefusal>
    ensures ok { OnOk result (IsLibrary (record { name = name.now; bytes = bytes.now })) }
    ensures damaged { IfErr result (λ e. e ≡ StoreRefusal.Damaged
        → IsLibrary (record { name = name.now; bytes = bytes.now }) → ⊥) }
    ensures refusals { IfErr result (λ e. (e ≡ StoreRefusal.Damaged)
        ⊎ (e ≡ StoreRefusal.OutOfMemory)) }
{
    match Admitted::read(alloc, bytes) {
        Ok(object) => {
            if is_library(&object, name) {
                Ok(())
            } else {
                Err(StoreRefusal::Damaged)
            }
        }
        Err(ReadRefusal::File(_)) => Err(StoreRefusal::Damaged),
        Err(ReadRefusal::OutOfMemory) => Err(StoreRefusal::OutOfMemory),
    }
}

/// Reads the file at `position` into `buffer`, tests that it is a library with its entry's name,
/// and returns the buffer.
fn admit_at<D: Disk>(
    alloc: Global,
    store: &mut Store<D>,
    position: usize,
    buffer: Vec<u8>,
) -> Result<Vec<u8>, StoreRefusal>
    requires { position < length store.old.entries }
    ensures read { IsRead D.facts store.old store.new }
    ensures ok { (s : State) → IsAt D.facts store.old s
        → OnOk result (IsLibrary (slice_index_or s.libraries position no_library)) }
    ensures damaged { (s : State) → IsAt D.facts store.old s
        → IfErr result (λ e. e ≡ StoreRefusal.Damaged
        → IsLibrary (slice_index_or s.libraries position no_library) → ⊥) }
    ensures refusals { IfErr result (IsReadRefusal D.facts store.old store.new) }
    ensures all_calls { (d : PlacedEntry) → OnOk result (AreCallsExactly
        (file_sectors (slice_index_or store.old.entries position d))
        (D.facts store.old.disk) (D.facts store.new.disk)) }
{
    let bytes = store.read_blob_into(position, buffer)?;
    see_library(alloc, store.name(position), &bytes)?;
    Ok(bytes)
}

/// Reads each file of `store` once, into the same buffer, and tests that the file is a library with
/// its entry's name.
pub(crate) fn admit_files<D: Disk>(alloc: Global, store: &mut Store<D>) -> Result<(), StoreRefusal>
    ensures read { IsRead D.facts store.old store.new }
    ensures ok { (s : State) → IsAt D.facts store.old s
        → OnOk result (All IsLibrary s.libraries) }
    ensures damaged { (s : State) → IsAt D.facts store.old s
        → IfErr result (λ e. e ≡ StoreRefusal.Damaged
        → All IsLibrary s.libraries → ⊥) }
    ensures refusals { IfErr result (IsReadRefusal D.facts store.old store.new) }
    ensures all_calls { OnOk result (AreCallsExactly (sum_by file_sectors store.old.entries)
        (D.facts store.old.disk) (D.facts store.new.disk)) }
{
    let mut buffer = Vec::new(alloc);
    for position in 0..store.count() {
        buffer = admit_at(alloc, store, position, buffer)?;
    }
    Ok(())
}
