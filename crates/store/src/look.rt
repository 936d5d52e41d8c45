// Finds the store on a disk of version 1 or 2.
use crate::find::find_store;
use crate::old_store::OldStore;
use crate::refusal::StoreRefusal;
use crate::store::Store;
use roots::Version;
use sector_disk::Disk;
use states::is_geometry;
use std::alloc::Global;

/// The store on a disk. Its version is that of the disk's current root.
pub enum Look<D: Disk> {
    /// A store of version 2.
    Current(Store<D>),
    /// A store of version 1.
    Old(OldStore<D>),
}

impl<D: Disk> Store<D> {
    ghost use Rattle.store.specs.Looked.{Looks};

    /// Finds the store on a disk of version 1 or 2, also after a stop. Syncs, and reads the two
    /// root sectors, each catalogue, and one sector for each entry. Writes nothing. Refuses with
    /// S6, S3, S5, S11 or S1, and then also returns the disk.
    pub fn look(alloc: Global, disk: D) -> Result<Look<D>, (StoreRefusal, D)>
        ensures { Looks D.facts disk result }
    {
        if !is_geometry(disk.sectors()) {
            return Err((StoreRefusal::BadGeometry, disk));
        }
        let mut disk = disk;
        match find_store(alloc, &mut disk) {
            Ok(found) => match found.root.version() {
                Version::One => Ok(Look::Old(OldStore { disk, found, alloc })),
                Version::Two => Ok(Look::Current(found.into_store(alloc, disk))),
            },
            Err(refusal) => Err((refusal, disk)),
        }
    }
}
