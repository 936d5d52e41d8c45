use crate::kept::Kept;
use sector_disk::Disk;
use std::marker::Model;

/// A store on a disk of version 2.
pub struct Store<D: Disk> {
    pub(crate) disk: D,
    pub(crate) kept: Kept,
}

impl<D: Disk> Model for Store<D> {
    ghost use Rattle.store.specs.Opened.{Opened};
    ghost use Rattle.store.specs.inside.Stored.{IsStored, opened};

    ghost Value = { Opened D };

    ghost view = { λ store. opened store.disk store.kept };

    ghost invariant = { λ store. IsStored (D.facts store.disk).sectors store.kept };
}

impl<D: Disk> Store<D> {
    ghost use Rattle.std.specs.Prelude.{◌≡◌};

    /// Returns the disk.
    pub fn into_disk(self) -> D
        ensures { result ≡ self.disk }
    {
        let Store { disk, kept: _ } = self;
        disk
    }
}
