// The contents of a disk.
use sector_disk::Disk;
use std::marker::Model;
use store::Store;

/// The contents of a disk of version 2. Names, lengths and the places of files are in memory, but
/// no bytes of files. In contracts, the value is the store with these contents. The store isn't
/// changed, and none of its byte strings is held.
pub struct Contents<D: Disk> {
    pub(crate) store: Store<D>,
}

impl<D: Disk> Model for Contents<D> {
    ghost use Rattle.std.specs.Prelude.{◌≡◌, [], IsFalse};
    ghost use Rattle.store.specs.Opened.{Opened};

    ghost Value = { Opened D };

    ghost view = { λ contents. contents.store };

    ghost invariant = { λ contents. IsFalse contents.store.failed × (contents.store.held ≡ []) };
}

impl<D: Disk> Contents<D> {
    ghost use Rattle.std.specs.Prelude.{◌≡◌};

    /// Returns the store, which has the names, lengths and preloads.
    pub fn store(&self) -> &Store<D>
        ensures { result.now ≡ self.now }
    {
        &self.store
    }

    /// Returns the disk.
    pub fn into_disk(self) -> D
        ensures { result ≡ self.disk }
    {
        let Contents { store } = self;
        store.into_disk()
    }
}
