// Opens a disk of version 1 or 2 as a registry of version 2.
use crate::admit_current::admit_current;
use crate::admit_old::admit_old;
use crate::registry::Registry;
use sector_disk::Disk;
use std::alloc::Global;
use store::{Look, Store, StoreRefusal};

impl<D: Disk> Registry<D> {
    ghost use Rattle.registry.specs.Opening.{EndsUpgrading};

    /// Opens the registry on `disk`, which may be of version 1 or 2, as a registry of version 2,
    /// even after a stop. Opens a disk of version 2 in the same way as `open`. On a disk of version
    /// 1, reads by the rules of version 1, admits every file, and then writes the catalogues of the
    /// same libraries and the next root. A stop at any moment leaves the whole old registry or the
    /// whole new one. Refuses with S6 (BadGeometry), S3 (NotFormatted), S5 (Damaged), S10
    /// (GenerationEnd), S7 (Full), S11 (OutOfMemory) or S1 (Device), and then also returns the
    /// disk. After the first write, only S1 is possible.
    pub fn upgrade(alloc: Global, disk: D) -> Result<Registry<D>, (StoreRefusal, D)>
        ensures { EndsUpgrading D.facts disk result }
    {
        match Store::look(alloc, disk)? {
            Look::Current(store) => admit_current(alloc, store),
            Look::Old(store) => admit_old(alloc, store),
        }
    }
}
