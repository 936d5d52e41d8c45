// Reads a library's file.
ghost use Rattle.std.specs.Prelude.{◌≡◌, ◌≢◌, ◌<◌, length, slice_index_or, IfOk, IfErr, List};
ghost use Rattle.std.specs.Int.{div_ceil};
ghost use Rattle.sector_disk.specs.Disk.{AreCallsAtMost, AreCallsExactly, sector_bytes};
ghost use Rattle.store.specs.Stands.{no_library};
ghost use Rattle.store.specs.declared.placed_entry.PlacedEntry.{PlacedEntry};
ghost use Rattle.states.specs.State.{State};
ghost use Rattle.requests.specs.Library.{IsLibrary};
ghost use Rattle.registry.specs.Binding.{data_sectors};
ghost use Rattle.store.specs.IsRead.{IsRead, file_sectors};
ghost use Rattle.registry.specs.inside.Reading.{IsReadRefusal};
ghost use Rattle.registry.specs.inside.Source.{HasEntries, HasFiles, offered};

use crate::library_file::LibraryFile;
use crate::source::Source;
use sector_disk::Disk;
use std::alloc::Global;
use store::{Store, StoreRefusal};

/// Returns the name of the file at `position`.
fn name_at<'a, D: Disk>(store: &'a Store<D>, source: Source<'_>, position: usize) -> &'a [u8]
    requires { position < offered source store.now }
    ensures { (s : State) → HasFiles D.facts source.entry store.now s
        → result.now ≡ (slice_index_or s.libraries position no_library).name }
{
    match source {
        Source::Current => store.name(position),
        Source::Held(snapshot) => snapshot.name(store, position),
    }
}

/// Reads the bytes of the file at `position`.
fn read_at<D: Disk>(
    alloc: Global,
    store: &mut Store<D>,
    source: Source<'_>,
    position: usize,
) -> Result<Vec<u8>, StoreRefusal>
    requires { position < offered source store.old }
    ensures read { IsRead D.facts store.old store.new }
    ensures ok { (s : State) → HasFiles D.facts source.entry store.old s → IfOk result (λ bytes.
        bytes.items ≡ (slice_index_or s.libraries position no_library).bytes) }
    ensures whole { (s : State) → HasFiles D.facts source.entry store.old s
        → IfErr result (λ e. e ≢ StoreRefusal.Damaged) }
    ensures refusals { IfErr result (IsReadRefusal D.facts store.old store.new) }
    ensures all_calls { (entries : List PlacedEntry) → HasEntries source.entry store.old entries
        → IfOk result (λ bytes. AreCallsExactly (div_ceil (length bytes.items) sector_bytes)
        (D.facts store.old.disk) (D.facts store.new.disk)) }
    ensures calls { (entries : List PlacedEntry) → HasEntries source.entry store.old entries
        → (d : PlacedEntry)
        → AreCallsAtMost (file_sectors (slice_index_or entries position d))
        (D.facts store.old.disk) (D.facts store.new.disk) }
{
    match source {
        Source::Current => store.read_blob(alloc, position),
        Source::Held(snapshot) => snapshot.read(alloc, store, position),
    }
}

/// Reads the file at `position`, and tests that it is a library with its entry's name.
pub(crate) fn read_library<D: Disk>(
    alloc: Global,
    store: &mut Store<D>,
    source: Source<'_>,
    position: usize,
) -> Result<LibraryFile, StoreRefusal>
    requires { position < offered source store.old }
    ensures read { IsRead D.facts store.old store.new }
    ensures ok { (s : State) → HasFiles D.facts source.entry store.old s → IfOk result (λ file.
        file ≡ slice_index_or s.libraries position no_library) }
    ensures library { IfOk result IsLibrary }
    ensures damaged { (s : State) → HasFiles D.facts source.entry store.old s
        → IfErr result (λ e. e ≡ StoreRefusal.Damaged
        → IsLibrary (slice_index_or s.libraries position no_library) → ⊥) }
    ensures refusals { IfErr result (IsReadRefusal D.facts store.old store.new) }
    ensures all_calls { (entries : List PlacedEntry) → HasEntries source.entry store.old entries
        → IfOk result (λ file. AreCallsExactly (data_sectors file.bytes)
        (D.facts store.old.disk) (D.facts store.new.disk)) }
    ensures calls { (entries : List PlacedEntry) → HasEntries source.entry store.old entries
        → (d : PlacedEntry)
        → AreCallsAtMost (file_sectors (slice_index_or entries position d))
        (D.facts store.old.disk) (D.facts store.new.disk) }
{
    let bytes = read_at(alloc, store, source, position)?;
    LibraryFile::new(alloc, name_at(store, source, position), bytes)
}
