// Opens a disk to read its contents.
use crate::contents::Contents;
use sector_disk::Disk;
use std::alloc::Global;
use store::{Store, StoreRefusal};

impl<D: Disk> Contents<D> {
    ghost use Rattle.store.specs.Opens.{OpensByEntries};

    /// Opens the contents of a disk of version 2, also after a stop. Refuses with S12 (OldFormat)
    /// if the current root is of version 1. Syncs, and reads the two root sectors, each catalogue,
    /// and one sector for each entry. Writes nothing. A refusal returns the disk too.
    pub fn open(alloc: Global, disk: D) -> Result<Contents<D>, (StoreRefusal, D)>
        // The clause holds even if the files aren't libraries.
        ensures { OpensByEntries D.facts disk result }
    {
        let store = Store::open(alloc, disk)?;
        Ok(Contents { store })
    }
}
