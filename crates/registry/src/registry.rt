// A registry on a disk.
ghost use Rattle.std.specs.Prelude.{◌≡◌};

use sector_disk::Disk;
use std::alloc::Global;
use std::marker::Model;
use store::Store;

/// A registry on a disk. Names, lengths and the places of files are in memory, but no bytes of
/// files. In contracts, the value is the store of the registry.
pub struct Registry<D: Disk> {
    pub(crate) alloc: Global,
    pub(crate) store: Store<D>,
}

impl<D: Disk> Model for Registry<D> {
    ghost use Rattle.store.specs.Opened.{Opened};

    ghost Value = { Opened D };

    ghost view = { λ r. r.store };
}

impl<D: Disk> Registry<D> {
    ghost use Rattle.store.specs.Holds.{AreHolds};

    /// Returns whether a write or a sync has failed. If so, every command is refused with S2
    /// (Reopen) until the disk is opened again.
    pub fn has_failed(&self) -> bool
        ensures value { result ≡ self.now.failed }
    {
        self.store.has_failed()
    }

    /// Does nothing. Its clause states for proofs that on any disk, and after any call, each held
    /// byte string has one row.
    pub fn holds_are_sound(&self)
        ensures { AreHolds self.now }
    {
        self.store.holds_are_sound();
    }

    /// Returns the disk.
    pub fn into_disk(self) -> D
        ensures { result ≡ self.disk }
    {
        let Registry { alloc: _, store } = self;
        store.into_disk()
    }
}
