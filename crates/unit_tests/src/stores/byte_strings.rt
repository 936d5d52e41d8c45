// Makes and opens stores, and puts byte strings into them.
use crate::stores::sectors::memory;
use sector_disk::{Disk, Memory};
use std::process::Abort;
use store::Store;

/// Makes a new store on a disk of `sectors` sectors.
pub(crate) fn formatted(rt: &(impl Abort + AllocGlobal), sectors: u32) -> Store<Memory> {
    match Store::format(rt.alloc(), memory(rt, sectors)) {
        Ok(store) => store,
        Err(_) => panic!(rt; "format refused"),
    }
}

/// Opens the store on a disk.
pub(crate) fn opened<D: Disk + Drop>(rt: &(impl Abort + AllocGlobal), disk: D) -> Store<D> {
    match Store::open(rt.alloc(), disk) {
        Ok(store) => store,
        Err(_) => panic!(rt; "open refused"),
    }
}

/// Puts bytes under a name of one letter. They replace the byte string with this name, or are added
/// after all others.
pub(crate) fn put(rt: &impl Abort, store: &mut Store<Memory>, letter: u8, bytes: &[u8]) {
    assert!(rt; letter > b'/' && letter < 127);
    assert!(rt; bytes.len() >= 64 && bytes.len() <= 16_777_216);
    let name = [letter];
    let is_put = match store.position(&name) {
        Some(_) => Store::put_over(store, &name, bytes).is_ok(),
        None => Store::put_new(store, &name, bytes).is_ok(),
    };
    assert!(rt; is_put);
}
