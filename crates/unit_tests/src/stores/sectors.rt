// Makes and copies disks in memory, and writes their sectors.
use sector_disk::{Disk, Memory, SECTOR_BYTES};
use std::process::Abort;

/// Makes a disk of `sectors` sectors of zeros.
pub(crate) fn memory(rt: &(impl Abort + AllocGlobal), sectors: u32) -> Memory {
    Memory::new(rt.alloc(), sectors).expect(rt, "a disk in memory")
}

/// Returns a copy of a disk.
pub(crate) fn copy(rt: &impl Abort, disk: &Memory) -> Memory {
    disk.copy().expect(rt, "a copy of a disk")
}

/// Writes `content` to sector `at`.
pub(crate) fn write(rt: &impl Abort, disk: &mut Memory, at: u32, content: &[u8; SECTOR_BYTES]) {
    assert!(rt; at < disk.sectors());
    assert!(rt; disk.write(at, content).is_ok());
}
