// Tests the answers of a store on a disk whose sectors the test writes itself.
use crate::stores::byte_strings::opened;
use crate::stores::disks::{write_catalogue, write_entry, write_root};
use crate::stores::sectors::{memory, write};
use extents::Extent;
use roots::{Entry, Root};
use sector_disk::{Fuse, Memory, SECTOR_BYTES};
use std::process::Abort;
use store::{Store, StoreRefusal};

// Makes a disk of 8 sectors. Each is filled with its own number, except the roots, the entry in
// sector 4 and the catalogue in sector 5. A byte string of 1,100 bytes is in sectors 6, 2 and 3,
// and is a preload.
fn scattered(rt: &(impl Abort + AllocGlobal)) -> Memory {
    let mut disk = memory(rt, 8);
    for at in 2..8 {
        write(rt, &mut disk, at, &[at as u8; SECTOR_BYTES]);
    }
    let extents = [Extent { start: 6, count: 1 }, Extent { start: 2, count: 2 }];
    write_entry(rt, &mut disk, 4, &Entry::new(b"a", 1100, &extents));
    write_catalogue(rt, &mut disk, 5, &[4]);
    write_root(rt, &mut disk, &Root::over_catalogues(0, 8, 1, &[5], &[0]));
    disk
}

// Opens the store on the disk of `scattered`. The disk's sixth call fails. The fifth call, which is
// the last one of the opening, reads the entry. The sixth reads the first sector of the byte
// string.
fn opened_scattered(rt: &(impl Abort + AllocGlobal)) -> Store<Fuse<Memory>> {
    opened(rt, Fuse::new(scattered(rt), 6, false, false))
}

// Returns whether the store reports the one byte string of the disk, and that it is a preload.
fn tells(store: &Store<Fuse<Memory>>) -> bool {
    store.count() == 1
        && store.name(0) == b"a".as_slice()
        && store.length(0) == 1100
        && store.position(b"a") == Some(0)
        && store.position(b"ab").is_none()
        && store.preloads() == [0].as_slice()
}

// Offsets in the byte string, and the bytes at these offsets.
const PLACES: [(usize, u8); 6] = [(0, 6), (511, 6), (512, 2), (1023, 2), (1024, 3), (1099, 3)];

// Returns whether `bytes` are those of the byte string.
fn are_its(bytes: &[u8]) -> bool {
    for (at, want) in &PLACES {
        if bytes.get(*at) != Some(want) {
            return false;
        }
    }
    bytes.len() == 1100
}

// Reads the only byte string. Returns the refusal, or whether the bytes are right.
fn read(
    rt: &(impl Abort + AllocGlobal),
    store: &mut Store<Fuse<Memory>>,
) -> Result<bool, StoreRefusal> {
    assert!(rt; store.count() == 1);
    let bytes = store.read_blob(rt.alloc(), 0)?;
    Ok(are_its(&bytes))
}

#[test]
fn a_byte_string_is_told_and_read_in_the_order_of_its_extents(rt: HostRuntime) {
    let mut store = opened_scattered(&rt);
    let told = tells(&store);

    // After a failed read, the store can still be read.
    let first = read(&rt, &mut store);
    let second = read(&rt, &mut store);
    let _ = store.into_disk();
    assert!(rt; told && first == Err(StoreRefusal::Device) && second == Ok(true));
}
