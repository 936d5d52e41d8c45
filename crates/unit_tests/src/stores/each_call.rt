// Makes each call of a store of either version, and of the sectors with a format, once, by its
// public path, with ample memory. No other crate here makes some of these calls, because they are
// for programs that only keep byte strings.
use crate::stores::disks::{write_entry, write_root};
use crate::stores::sectors::memory;
use crate::stores::seen::given;
use extents::Extent;
use roots::{
    Catalogue, Entry, Root, Slot, choose, decode_catalogue, decode_entry, decode_root,
    encode_catalogue, encode_entry, encode_root,
};
use sector_disk::Memory;
use std::alloc::Global;
use std::process::Abort;
use store::{Look, OldStore, Store};

// Makes a disk of version 1 with one byte string, 344 zeros with the name `a`, which is a preload.
fn old_disk(rt: &(impl Abort + AllocGlobal)) -> Memory {
    let mut disk = memory(rt, 8);
    let extents = [Extent { start: 2, count: 1 }];
    write_entry(rt, &mut disk, 3, &Entry::new(b"a", 344, &extents));
    write_root(rt, &mut disk, &Root::over_entries(0, 8, &[], &[]));
    write_root(rt, &mut disk, &Root::over_entries(1, 8, &[3], &[0]));
    disk
}

// Returns whether a store of version 1 reports the byte string `a`.
fn tells_old(store: &OldStore<Memory>) -> bool {
    OldStore::count(store) == 1
        && OldStore::name(store, 0) == b"a".as_slice()
        && OldStore::length(store, 0) == 344
        && OldStore::position(store, b"a") == Some(0)
        && OldStore::preloads(store) == [0].as_slice()
}

// Returns whether a store of version 1 reads the byte string `a`.
fn reads_old(alloc: Global, store: &mut OldStore<Memory>) -> bool {
    OldStore::count(store) == 1 && given(OldStore::read_blob(store, alloc, 0)) == Ok((344, Some(0)))
}

// Returns whether a store of version 2 reports the byte string `a`.
fn tells(store: &Store<Memory>) -> bool {
    Store::count(store) == 1
        && Store::name(store, 0) == b"a".as_slice()
        && Store::length(store, 0) == 344
        && Store::position(store, b"a") == Some(0)
        && Store::preloads(store) == [0].as_slice()
}

// Returns whether a store of version 2 reads the byte string `a`, both directly and through a hold.
fn reads(alloc: Global, store: &mut Store<Memory>) -> bool {
    if Store::count(store) != 1 {
        return false;
    }
    let read = given(Store::read_blob(store, alloc, 0));
    let Ok(held) = Store::hold(store, 0) else {
        return false;
    };
    let held_is = given(Store::read_held(store, alloc, &held));
    Store::let_go(store, held);
    read == Ok((344, Some(0))) && held_is == read
}

// If a store of version 1 reports and reads the byte string `a`, commits it. Returns the new store.
fn committed(alloc: Global, old: OldStore<Memory>) -> Option<Store<Memory>> {
    let mut old = old;
    if tells_old(&old) && reads_old(alloc, &mut old) {
        OldStore::commit(old).ok()
    } else {
        let _ = OldStore::into_disk(old);
        None
    }
}

// Returns the store of version 2 that `look` and a commit make of a disk of version 1.
fn looked_and_committed(rt: &(impl Abort + AllocGlobal)) -> Option<Store<Memory>> {
    match Store::look(rt.alloc(), old_disk(rt)) {
        Ok(Look::Old(store)) => committed(rt.alloc(), store),
        Ok(Look::Current(store)) => Some(store),
        Err(_) => None,
    }
}

// Returns whether a store has the byte string `a` and can be changed, and whether its disk can be
// opened again.
fn is_whole(rt: &(impl Abort + AllocGlobal), store: Store<Memory>) -> bool {
    let mut store = store;
    let has = tells(&store) && reads(rt.alloc(), &mut store);
    let chosen = Store::set_preloads(&mut store, &[]).is_ok();
    match Store::open(rt.alloc(), Store::into_disk(store)) {
        Ok(opened) => {
            let kept = Store::count(&opened) == 1 && Store::preloads(&opened).is_empty();
            let _ = Store::into_disk(opened);
            has && chosen && kept
        }
        Err(_) => false,
    }
}

#[test]
fn a_store_of_version_1_is_looked_at_and_committed(rt: HostRuntime) {
    match looked_and_committed(&rt) {
        Some(store) => assert!(rt; is_whole(&rt, store)),
        None => panic!(rt; "refused"),
    }
}

#[test]
fn a_store_of_version_1_is_upgraded(rt: HostRuntime) {
    match Store::upgrade(rt.alloc(), old_disk(&rt)) {
        Ok(store) => assert!(rt; is_whole(&rt, store)),
        Err(_) => panic!(rt; "refused"),
    }
}

#[test]
fn entries_and_catalogues_are_decoded(rt: HostRuntime) {
    let entry = Entry::new(b"a", 344, &[Extent { start: 2, count: 1 }]);
    let catalogue = Catalogue::new(&[3]);
    assert!(rt; entry.has_spelling() && catalogue.has_spelling());
    let entry_again = decode_entry(&encode_entry(&entry));
    let catalogue_again = decode_catalogue(&encode_catalogue(&catalogue));
    assert!(rt; entry_again == Some(entry) && catalogue_again == Some(catalogue));
}

#[test]
fn the_later_of_two_roots_is_chosen(rt: HostRuntime) {
    let first = Root::over_catalogues(0, 8, 0, &[], &[]);
    let later = Root::over_catalogues(1, 8, 1, &[4], &[0]);
    assert!(rt; later.has_spelling());
    let slot = decode_root(&encode_root(&later));
    assert!(rt; slot == Slot::Good(later) && choose(Slot::Good(first), slot) == Ok(later));
}
