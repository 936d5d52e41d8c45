// Queries of a store of version 1. They read only memory, and make no call of the disk.
use crate::old_store::OldStore;
use sector_disk::Disk;

impl<D: Disk> OldStore<D> {
    ghost use Rattle.std.specs.Prelude.{◌≡◌, ◌≢◌, ℕ, ◌<◌, ◌≤◌, ◌↔◌, All, Some, IsFalse};
    ghost use Rattle.std.specs.Prelude.{IsNone, IfSome, length, slice_index_or};
    ghost use Rattle.extents.specs.Extent.{AreDistinct};
    ghost use Rattle.states.specs.Limits.{most_libraries, most_preloads};
    ghost use Rattle.roots.specs.Root.{listed_preloads};
    ghost use Rattle.store.specs.declared.placed_entry.PlacedEntry.{PlacedEntry};
    ghost use Rattle.store.specs.Opened.{IsOldAt};
    ghost use Rattle.store.specs.Stands.{HaveOwnNames, name_of, no_library, names_at};
    ghost use Rattle.store.specs.Names.{LacksName, IsName, IsFileSize};
    ghost use Rattle.states.specs.State.{State};

    /// The number of byte strings.
    pub fn count(&self) -> usize
        ensures value { result ≡ length self.now.entries }
        ensures few { result ≤ most_libraries }
        ensures own_names { HaveOwnNames self.now.entries }
        ensures counted { result ≡ self.now.root.library_count }
        ensures state { (s : State) → IsOldAt D.facts self.now s
            → result ≡ length s.libraries }
    {
        self.found.entries.len()
    }

    /// Returns the name of the byte string at `position`.
    pub fn name(&self, position: usize) -> &[u8]
        requires { position < length self.now.entries }
        ensures value { (d : PlacedEntry) →
            result.now ≡ name_of (slice_index_or self.now.entries position d).entry }
        ensures form { IsName result.now }
        ensures state { (s : State) → IsOldAt D.facts self.now s
            → result.now ≡ (slice_index_or s.libraries position no_library).name }
    {
        self.found.entries[position].entry.name_bytes()
    }

    /// Returns the length in bytes of the byte string at `position`.
    pub fn length(&self, position: usize) -> u32
        requires { position < length self.now.entries }
        ensures value { (d : PlacedEntry) →
            result ≡ (slice_index_or self.now.entries position d).entry.file_length }
        ensures size { IsFileSize result }
        ensures state { (s : State) → IsOldAt D.facts self.now s
            → result ≡ length (slice_index_or s.libraries position no_library).bytes }
    {
        self.found.entries[position].entry.file_length
    }

    /// Returns the position of the byte string with the name `name`, if there is one. Tries a guess
    /// first, and then a binary search by name: at most 9 comparisons in all.
    pub fn position(&self, name: &[u8]) -> Option<usize>
        ensures none { IsNone result → LacksName self.now name.now }
        ensures some { IfSome result (λ i. (i < length self.now.entries)
            × ((d : PlacedEntry)
            → name_of (slice_index_or self.now.entries i d).entry ≡ name.now)) }

        // No two byte strings have the same name, so no other byte string has this name.
        ensures own_names { HaveOwnNames self.now.entries }
        ensures state { (s : State) → IsOldAt D.facts self.now s
            → (i : ℕ) → (result ≡ Some i)
            ↔ ((i < length s.libraries)
            × ((slice_index_or s.libraries i no_library).name ≡ name.now)) }
    {
        self.found.index.position_of(&self.found.entries, name)
    }

    /// The positions of the preloads, in the order in which they were chosen.
    pub fn preloads(&self) -> &[u16]
        ensures value { result.now ≡ listed_preloads self.now.root }
        ensures few { length result.now ≤ most_preloads }
        ensures inside { All (λ position. position < length self.now.entries) result.now }
        ensures once { AreDistinct result.now }
        ensures state { (s : State) → IsOldAt D.facts self.now s
            → s.preloads ≡ names_at s.libraries result.now }
    {
        self.found.root.preload_positions()
    }
}
