// The walk of a bind through the files of its load order.
ghost use Rattle.std.specs.Prelude.{◌≡◌, ◌<◌, ◌≤◌, ◌+◌, ◌-◌, ◌∷◌, ◌++◌, [], ℕ, List, length};
ghost use Rattle.std.specs.Prelude.{get_or, slice_index_or, true, false, IfOk};
ghost use Rattle.std.specs.Prelude.{IfErr, OnOk, OnErr};
ghost use Rattle.sector_disk.specs.Disk.{AreCallsAtMost};
ghost use Rattle.scope.specs.Queue.{AreApart};
ghost use Rattle.store.specs.Stands.{no_library};
ghost use Rattle.store.specs.declared.placed_entry.PlacedEntry.{PlacedEntry};
ghost use Rattle.states.specs.State.{State};
ghost use Rattle.requests.specs.Library.{IsLibrary};
ghost use Rattle.store.specs.IsRead.{IsRead, file_sectors};
ghost use Rattle.registry.specs.inside.Reading.{IsReadRefusal};
ghost use Rattle.registry.specs.inside.Source.{AreNamesOf, HasEntries, HasFiles, Offers, offered};
ghost use Rattle.registry.specs.inside.Walked.{HasReadNext, IsAmong, IsWalked, next_place};

use crate::library_file::LibraryFile;
use crate::needs::Needs;
use crate::reading::read_library;
use crate::source::{Files, Named, Source, preload_numbers};
use hash_check::Admitted;
use scope::{first_level, program_name};
use sector_disk::Disk;
use std::alloc::{AllocError, Global};
use store::{Store, StoreRefusal};

/// A walk, level by level, through the files that a program needs. It has the needs found so far,
/// and the files that were read, in load order.
#[derive(Drop)]
pub(crate) struct Walk {
    pub(crate) needs: Needs,
    pub(crate) files: Vec<LibraryFile>,
}

impl Walk {
    /// Starts a walk: stores the needs of the program, and reads no file.
    pub(crate) fn start<N: Named>(
        alloc: Global,
        names: &N,
        program: &Admitted<'_>,
    ) -> Result<Walk, AllocError>
        ensures ok { (entries : List PlacedEntry) → (s : State)
            → AreNamesOf s entries (N.has names.now entries) (N.listed names.now)
            → IfOk result (λ walk. IsWalked program.now s walk.needs walk.files.items) }
        ensures among { IfOk result (λ walk. IsAmong (N.offered names.now)
            walk.needs walk.files.items) }
        ensures none { IfOk result (λ walk. walk.files.items ≡ []) }
    {
        let preloads = preload_numbers(alloc, names)?;
        let places = first_level(alloc, names.count(), &preloads)?;
        let mut needs = Needs {
            places,
            missing: None,
        };
        needs.add_needed(alloc, names, program_name(), program.object())?;
        let files = Vec::new(alloc);
        Ok(Walk { needs, files })
    }

    /// Returns whether the queue has a file that hasn't been read yet.
    pub(crate) fn has_next(&self) -> bool
        ensures yes { result ≡ true
            → length self.now.files.items + 1 < length self.now.needs.places.places }
        ensures no { result ≡ false
            → length self.now.needs.places.places ≤ length self.now.files.items + 1 }
        ensures few { length self.now.needs.places.places ≤ self.now.needs.places.limit }
        ensures apart { AreApart self.now.needs.places.limit self.now.needs.places.places }
    {
        self.files.len() + 1 < self.needs.places.count()
    }

    // Does nothing. Its clause states for proofs that no place occurs twice.
    fn places_are_apart(&self)
        ensures { AreApart self.now.needs.places.limit self.now.needs.places.places }
    {
        let _ = self.needs.places.count();
    }

    /// Returns the position of the file that is read next.
    pub(crate) fn next_position(&self) -> usize
        requires next { length self.now.files.items + 1 < length self.now.needs.places.places }
        requires first { get_or self.now.needs.places.places 0 1 ≡ 0 }
        ensures next { result ≡ next_place self.now.needs self.now.files.items - 1 }
        ensures inside { result + 1 < self.now.needs.places.limit }
        ensures above { 0 < next_place self.now.needs self.now.files.items }
        ensures apart { AreApart self.now.needs.places.limit self.now.needs.places.places }
    {
        // Only the first place is the program's.
        self.places_are_apart();
        self.needs.places.at(self.files.len() + 1) - 1
    }

    /// Adds the next file, which has been read, to the walk, and stores the needs of that file. If
    /// memory is refused, leaves the walk unchanged.
    pub(crate) fn take<N: Named>(
        &mut self,
        alloc: Global,
        names: &N,
        file: LibraryFile,
    ) -> Result<(), AllocError>
        requires next { length self.old.files.items + 1 < length self.old.needs.places.places }
        requires among { IsAmong (N.offered names.now) self.old.needs self.old.files.items }
        ensures walked { (program : List ℕ) → (entries : List PlacedEntry) → (s : State)
            → AreNamesOf s entries (N.has names.now entries) (N.listed names.now)
            → IsWalked program s self.old.needs self.old.files.items
            → file ≡ slice_index_or s.libraries
            (next_place self.old.needs self.old.files.items - 1) no_library
            → OnOk result (IsWalked program s self.new.needs self.new.files.items) }
        ensures behind { OnOk result
            (self.new.files.items ≡ self.old.files.items ++ file ∷ []) }
        ensures among { OnOk result (IsAmong (N.offered names.now)
            self.new.needs self.new.files.items) }
        ensures same { OnErr result ((self.new.needs ≡ self.old.needs)
            × (self.new.files.items ≡ self.old.files.items)) }
    {
        self.places_are_apart();
        self.files.reserve(1)?;
        self.needs
            .add_needed(alloc, names, file.name(), file.admitted().object())?;
        self.files.push_reserved(file);
        Ok(())
    }

    /// Reads and admits the next file, and stores its needs. If it refuses, leaves the walk
    /// unchanged.
    pub(crate) fn step<D: Disk>(
        &mut self,
        alloc: Global,
        store: &mut Store<D>,
        source: Source<'_>,
    ) -> Result<(), StoreRefusal>
        requires next { length self.old.files.items + 1 < length self.old.needs.places.places }
        requires among { IsAmong (offered source store.old)
            self.old.needs self.old.files.items }
        ensures walked { (program : List ℕ) → (entries : List PlacedEntry) → (s : State)
            → Offers D.facts source.entry entries s store.old
            → IsWalked program s self.old.needs self.old.files.items
            → OnOk result (IsWalked program s self.new.needs self.new.files.items) }
        ensures next { OnOk result (HasReadNext D.facts source.entry store.old store.new
            self.old.needs self.old.files.items self.new.files.items) }
        ensures calls { (entries : List PlacedEntry) → HasEntries source.entry store.old entries
            → (d : PlacedEntry) → AreCallsAtMost (file_sectors (slice_index_or entries
            (next_place self.old.needs self.old.files.items - 1) d))
            (D.facts store.old.disk) (D.facts store.new.disk) }
        ensures among { OnOk result (IsAmong (offered source.entry store.old)
            self.new.needs self.new.files.items) }
        ensures same { OnErr result ((self.new.needs ≡ self.old.needs)
            × (self.new.files.items ≡ self.old.files.items)) }
        ensures read { IsRead D.facts store.old store.new }
        ensures damaged { (s : State) → HasFiles D.facts source.entry store.old s
            → IfErr result (λ e. e ≡ StoreRefusal.Damaged → IsLibrary (slice_index_or s.libraries
            (next_place self.old.needs self.old.files.items - 1) no_library) → ⊥) }
        ensures refusals { IfErr result (IsReadRefusal D.facts store.old store.new) }
    {
        let position = self.next_position();
        let file = read_library(alloc, store, source, position)?;
        self.take(alloc, &Files { store, source }, file)?;
        Ok(())
    }
}
