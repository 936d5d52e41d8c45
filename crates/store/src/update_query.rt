// Queries of an update's draft, and reads of the draft's byte strings.
use crate::read::read_file;
use crate::refusal::StoreRefusal;
use crate::update::Update;
use sector_disk::Disk;
use std::alloc::Global;

impl<D: Disk> Update<D> {
    ghost use Rattle.std.specs.Prelude.{◌≡◌, ◌≢◌, ℕ, ◌<◌, ◌≤◌, ◌↔◌, All, Some, IsNone, IfSome};
    ghost use Rattle.std.specs.Prelude.{length, slice_index_or};
    ghost use Rattle.extents.specs.Extent.{AreDistinct};
    ghost use Rattle.states.specs.Limits.{most_libraries, most_preloads};
    ghost use Rattle.states.specs.State.{State};
    ghost use Rattle.store.specs.declared.placed_entry.PlacedEntry.{PlacedEntry};
    ghost use Rattle.store.specs.Draft.{IsDraftedAt, IsNewToDraft, ReadsDraft};
    ghost use Rattle.store.specs.Names.{IsFileSize, IsName};
    ghost use Rattle.store.specs.Stands.{HaveOwnNames, name_of, names_at, no_library};

    /// Returns whether a write or a sync of the store has failed. If so, the update refuses each
    /// change, and the commit, with S2.
    pub fn has_failed(&self) -> bool
        ensures { result ≡ self.now.store.failed }
    {
        self.kept.failed
    }

    /// The number of byte strings of the draft.
    pub fn count(&self) -> usize
        ensures value { result ≡ length self.now.entries }
        ensures few { result ≤ most_libraries }
        ensures state { (s d : State) → IsDraftedAt D.facts self.now s d
            → result ≡ length d.libraries }
    {
        self.draft.entries.len()
    }

    /// Does nothing. Its clause states that on any disk no two byte strings of the draft have the
    /// same name.
    pub fn entries_are_sound(&self)
        ensures { HaveOwnNames self.now.entries }
    {
        let _ = &self.draft.entries;
    }

    /// Returns the name of the byte string at `position` of the draft.
    pub fn name(&self, position: usize) -> &[u8]
        requires { position < length self.now.entries }
        ensures value { (d : PlacedEntry) →
            result.now ≡ name_of (slice_index_or self.now.entries position d).entry }
        ensures form { IsName result.now }
        ensures state { (s d : State) → IsDraftedAt D.facts self.now s d
            → result.now ≡ (slice_index_or d.libraries position no_library).name }
    {
        self.draft.entries[position].entry.name_bytes()
    }

    /// Returns the length in bytes of the byte string at `position` of the draft.
    pub fn length(&self, position: usize) -> u32
        requires { position < length self.now.entries }
        ensures value { (d : PlacedEntry) →
            result ≡ (slice_index_or self.now.entries position d).entry.file_length }
        ensures size { IsFileSize result }
        ensures state { (s d : State) → IsDraftedAt D.facts self.now s d
            → result ≡ length (slice_index_or d.libraries position no_library).bytes }
    {
        self.draft.entries[position].entry.file_length
    }

    /// Returns the position of the draft's byte string with the name `name`, if there is one. Tries
    /// a guess first, and then a binary search by name.
    pub fn position(&self, name: &[u8]) -> Option<usize>
        ensures none { IsNone result → IsNewToDraft self.now name.now }
        ensures some { IfSome result (λ i. (i < length self.now.entries)
            × ((d : PlacedEntry)
            → name_of (slice_index_or self.now.entries i d).entry ≡ name.now)) }
        ensures few { length self.now.entries ≤ most_libraries }
        ensures own_names { HaveOwnNames self.now.entries }
        ensures state { (s d : State) → IsDraftedAt D.facts self.now s d
            → (i : ℕ) → (result ≡ Some i)
            ↔ ((i < length d.libraries)
            × ((slice_index_or d.libraries i no_library).name ≡ name.now)) }
    {
        self.draft.index.position_of(&self.draft.entries, name)
    }

    /// The positions of the draft's preloads, in the order in which they were chosen.
    pub fn preloads(&self) -> &[u16]
        ensures value { result.now ≡ self.now.preloads }
        ensures few { length result.now ≤ most_preloads }
        ensures inside { All (λ position. position < length self.now.entries) result.now }
        ensures once { AreDistinct result.now }
        ensures state { (s d : State) → IsDraftedAt D.facts self.now s d
            → d.preloads ≡ names_at d.libraries result.now }
    {
        self.draft.preloads.as_slice()
    }

    /// Returns the byte string at `position` of the draft. Reads each of its sectors once, and
    /// writes nothing. Refuses with S2, S11 or S1.
    pub fn read_blob(&mut self, alloc: Global, position: usize) -> Result<Vec<u8>, StoreRefusal>
        requires { position < length self.old.entries }
        ensures { ReadsDraft D.facts self.old self.new position result }
    {
        if self.kept.failed {
            return Err(StoreRefusal::Reopen);
        }
        let placed = &self.draft.entries[position];
        read_file(&mut self.disk, placed, Vec::new(alloc))
    }
}
