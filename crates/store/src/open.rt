// Opens a store again.
use crate::find::find_current;
use crate::refusal::StoreRefusal;
use crate::store::Store;
use sector_disk::Disk;
use states::is_geometry;
use std::alloc::Global;

impl<D: Disk> Store<D> {
    ghost use Rattle.store.specs.Opens.{OpensByEntries};

    /// Opens the store that a disk of version 2 holds, also after a stop. Syncs, and reads the two
    /// root sectors, each catalogue, and one sector for each entry. Writes nothing. Refuses with
    /// S6, S3, S12, S5, S11 or S1, and then also returns the disk. S12 (OldFormat) means that the
    /// current root is of version 1.
    pub fn open(alloc: Global, disk: D) -> Result<Store<D>, (StoreRefusal, D)>
        ensures { OpensByEntries D.facts disk result }
    {
        if !is_geometry(disk.sectors()) {
            return Err((StoreRefusal::BadGeometry, disk));
        }
        let mut disk = disk;
        match find_current(alloc, &mut disk) {
            Ok(found) => Ok(found.into_store(alloc, disk)),
            Err(refusal) => Err((refusal, disk)),
        }
    }
}
