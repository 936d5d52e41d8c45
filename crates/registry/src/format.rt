// Makes a registry.
use crate::registry::Registry;
use sector_disk::Disk;
use std::alloc::Global;
use store::{Store, StoreRefusal};

impl<D: Disk> Registry<D> {
    ghost use Rattle.store.specs.AnyDisk.{MakesOnAnyDisk};
    ghost use Rattle.store.specs.Makes.{Makes};
    ghost use Rattle.registry.specs.Opened.{IsAt};
    ghost use Rattle.registry.specs.Stands.{Stands};

    /// Makes an empty registry of version 2 on a disk that has no root of version 1 or 2. Writes
    /// one sector. Refuses with S6 (BadGeometry), S11 (OutOfMemory), S4 (AlreadyFormatted) or S1
    /// (Device), and then also returns the disk.
    pub fn format(alloc: Global, disk: D) -> Result<Registry<D>, (StoreRefusal, D)>
        // This clause is for an honest disk.
        ensures making { Makes Stands D.facts (IsAt D.facts) disk result }
        ensures on_any_disk { MakesOnAnyDisk D.facts disk result }
    {
        let store = Store::format(alloc, disk)?;
        Ok(Registry { alloc, store })
    }
}
