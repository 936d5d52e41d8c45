// A list of libraries, which commands test and report.
ghost use Rattle.std.specs.Prelude.{◌≡◌, ◌<◌, ◌≤◌, ◌↔◌, ℕ, All, Bool, IfSome, IsFalse, List, Some};
ghost use Rattle.std.specs.Prelude.{length, slice_index_or};
ghost use Rattle.extents.specs.Extent.{AreDistinct};
ghost use Rattle.roots.specs.Root.{listed_preloads};
ghost use Rattle.states.specs.Limits.{most_libraries, most_preloads};
ghost use Rattle.states.specs.State.{State};
ghost use Rattle.store.specs.Names.{IsFileSize, IsName};
ghost use Rattle.store.specs.Opened.{IsAt};
ghost use Rattle.store.specs.Stands.{HaveOwnNames, name_of, names_at, no_library};
ghost use Rattle.store.specs.declared.placed_entry.PlacedEntry.{PlacedEntry};

use sector_disk::Disk;
use store::Store;

/// A list of libraries.
pub(crate) trait Listed {
    /// The list has the libraries and preloads of a state.
    ghost is_at: { Self → State → Type 0 };

    /// The entries of the list.
    ghost entries: { Self → List PlacedEntry };

    /// The positions of the preloads.
    ghost chosen: { Self → List ℕ };

    /// Whether a write or a sync has failed.
    ghost failed: { Self → Bool };

    /// Returns whether a write or a sync has failed.
    fn has_failed(&self) -> bool
        ensures { result ≡ failed self.now };

    /// Returns the number of libraries.
    fn count(&self) -> usize
        ensures value { result ≡ length (entries self.now) }
        ensures few { result ≤ most_libraries }
        ensures state { (s : State) → is_at self.now s → result ≡ length s.libraries };

    /// Returns the name of the library at `position`.
    fn name(&self, position: usize) -> &[u8]
        requires { position < length (entries self.now) }
        ensures form { IsName result.now }
        ensures state { (s : State) → is_at self.now s
            → result.now ≡ (slice_index_or s.libraries position no_library).name };

    /// Returns the length in bytes of the file at `position`.
    fn length(&self, position: usize) -> u32
        requires { position < length (entries self.now) }
        ensures size { IsFileSize result }
        ensures state { (s : State) → is_at self.now s
            → result ≡ length (slice_index_or s.libraries position no_library).bytes };

    /// Returns the position of the library with the name `name`, or `None` if there is none.
    fn position(&self, name: &[u8]) -> Option<usize>
        ensures some { IfSome result (λ i. (i < length (entries self.now))
            × ((d : PlacedEntry)
            → name_of (slice_index_or (entries self.now) i d).entry ≡ name.now)) }
        ensures own_names { HaveOwnNames (entries self.now) }
        ensures state { (s : State) → is_at self.now s → (i : ℕ) → (result ≡ Some i)
            ↔ ((i < length s.libraries)
            × ((slice_index_or s.libraries i no_library).name ≡ name.now)) };

    /// Returns the positions of the preloads, in the order in which they were chosen.
    fn preloads(&self) -> &[u16]
        ensures value { result.now ≡ chosen self.now }
        ensures few { length result.now ≤ most_preloads }
        ensures inside { All (λ position. position < length (entries self.now)) result.now }
        ensures once { AreDistinct result.now }
        ensures within { (s : State) → is_at self.now s
            → All (λ position. position < length s.libraries) result.now }
        ensures state { (s : State) → is_at self.now s
            → s.preloads ≡ names_at s.libraries result.now };

    /// If the list is at a state, no write or sync has failed.
    ghost usable: { (list : Self) → (s : State) → is_at list s → IsFalse (failed list) };
}

impl<D: Disk> Listed for Store<D> {
    ghost is_at = { λ store. IsAt D.facts store };

    ghost entries = { λ store. store.entries };

    ghost chosen = { λ store. listed_preloads store.root };

    ghost failed = { λ store. store.failed };

    fn has_failed(&self) -> bool {
        Store::has_failed(self)
    }

    fn count(&self) -> usize {
        Store::count(self)
    }

    fn name(&self, position: usize) -> &[u8] {
        Store::name(self, position)
    }

    fn length(&self, position: usize) -> u32 {
        Store::length(self, position)
    }

    fn position(&self, name: &[u8]) -> Option<usize> {
        Store::position(self, name)
    }

    fn preloads(&self) -> &[u16] {
        Store::preloads(self)
    }

    ghost usable = { λ store s at. at.usable };
}
