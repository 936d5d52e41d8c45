// The answers of `look` for a disk of either version.
use crate::disks::stops::value_of;
use sector_disk::Disk;
use store::{Look, Store, StoreRefusal};

/// The result of `look`: the version of the disk with its number of byte strings, or a refusal.
#[derive(Clone, Copy, PartialEq)]
pub(crate) enum Seen {
    Current(usize),
    Old(usize),
    Refused(StoreRefusal),
}

/// Returns the answer of `look` for a disk.
pub(crate) fn look<D: Disk + Drop>(rt: &impl AllocGlobal, disk: D) -> Seen {
    match Store::look(rt.alloc(), disk) {
        Ok(Look::Current(store)) => {
            let seen = Seen::Current(store.count());
            let _ = store.into_disk();
            seen
        }
        Ok(Look::Old(store)) => {
            let seen = Seen::Old(store.count());
            let _ = store.into_disk();
            seen
        }
        Err((refusal, _)) => Seen::Refused(refusal),
    }
}

/// Returns the result of a read: the length and the value that all bytes have, or the refusal.
pub(crate) fn given(
    read: Result<Vec<u8>, StoreRefusal>,
) -> Result<(usize, Option<u8>), StoreRefusal> {
    let bytes = read?;
    Ok((bytes.len(), value_of(&bytes)))
}
