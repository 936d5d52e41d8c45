// Tests of stops and fuses: the contents that a stop leaves, and the calls that a fuse makes fail.
// A content is named by its byte: a sector that has only bytes of value 2 has content 2.
use sector_disk::{CallCount, Disk, DiskFault, Fuse, Liar, Memory, SECTOR_BYTES};
use std::alloc::Global;
use std::test::Fail;

/// Fills sector `at` with bytes of value `content`. Returns whether the sector exists and was
/// written.
pub(crate) fn write<D: Disk>(disk: &mut D, at: u32, content: u8) -> bool {
    at < Disk::sectors(disk) && Disk::write(disk, at, &[content; SECTOR_BYTES]).is_ok()
}

/// If all bytes have the same value, returns this value.
pub(crate) fn value_of(bytes: &[u8]) -> Option<u8> {
    let first = bytes.first().copied();
    for byte in bytes {
        if Some(*byte) != first {
            return None;
        }
    }
    first
}

/// Returns the content of sector `at`. Returns `None` if there is no such sector, if the disk
/// fails, or if the sector's bytes have different values.
pub(crate) fn read<D: Disk>(disk: &mut D, at: u32) -> Option<u8> {
    let mut sector = [99; SECTOR_BYTES];
    if at >= Disk::sectors(disk) || Disk::read(disk, at, &mut sector).is_err() {
        return None;
    }
    value_of(&sector)
}

/// Fills each sector with its number modulo 251. Returns whether all writes succeeded.
pub(crate) fn fill<D: Disk>(disk: &mut D) -> bool {
    for at in 0..disk.sectors() {
        if !write(disk, at, (at % 251) as u8) {
            return false;
        }
    }
    true
}

/// Returns whether each sector has its number modulo 251 as its content.
pub(crate) fn is_filled<D: Disk>(disk: &mut D) -> bool {
    for at in 0..disk.sectors() {
        if read(disk, at) != Some((at % 251) as u8) {
            return false;
        }
    }
    true
}

// Returns the number of contents that a stop may leave in a sector, or 0 if there is no such
// sector.
fn choices(disk: &Memory, at: u32) -> usize {
    if at < disk.sectors() {
        Memory::choices(disk, at)
    } else {
        0
    }
}

// Returns the disk after a stop that picks number `pick` for each sector.
fn stopped(disk: Memory, pick: usize) -> Memory {
    Memory::stop(disk, |_, _| pick)
}

// Returns the content of sector `at` after a stop that picks number `pick` for each sector. After
// the stop everything is synced.
fn left(disk: &Memory, at: u32, pick: usize) -> Option<u8> {
    let mut stopped = stopped(Memory::copy(disk).ok()?, pick);
    if stopped.sectors() == disk.sectors() && choices(&stopped, at) == 1 {
        read(&mut stopped, at)
    } else {
        None
    }
}

// Returns whether a stop may leave exactly `contents` in a sector, in this order. Picks each
// content by its number, and by the sum of its number and the number of contents.
fn leaves(disk: &Memory, at: u32, contents: &[u8]) -> bool {
    for (pick, content) in contents.iter().enumerate() {
        let higher = pick.saturating_add(contents.len());
        if left(disk, at, pick) != Some(*content) || left(disk, at, higher) != Some(*content) {
            return false;
        }
    }
    choices(disk, at) == contents.len()
}

#[test]
fn a_disk_may_have_tens_of_thousands_of_sectors(rt: HostRuntime) -> Result<(), Fail> {
    let mut disk = Memory::new(rt.alloc(), 50_000)?;
    let filled = fill(&mut disk) && disk.sync().is_ok();
    let more = write(&mut disk, 49_999, 255);
    let last = (choices(&disk, 49_999), left(&disk, 49_999, 1));
    let mut stopped = stopped(disk, 0);
    let kept = stopped.sectors() == 50_000 && is_filled(&mut stopped);
    assert!(rt; filled && more && kept && last == (2, Some(255)));
    Ok(())
}

#[test]
fn a_count_of_calls_has_no_bytes(rt: HostRuntime) {
    let mut calls = CallCount::new();
    calls.end_call(&Ok(()));
    calls.end_call(&Err(DiskFault::Failed));
    assert!(rt; size_of::<CallCount>() == 0);
}

// Writes content 1 to sector 0, syncs, writes content 2 to it, and reads it. Returns whether each
// call succeeded, and the content that was read.
fn four_calls<D: Disk>(disk: &mut D) -> ([bool; 4], Option<u8>) {
    let first = write(disk, 0, 1);
    let synced = Disk::sync(disk).is_ok();
    let second = write(disk, 0, 2);
    let content = read(disk, 0);
    ([first, synced, second, content.is_some()], content)
}

/// Each row has: the number of the failing call; whether all later calls fail too; whether it fails
/// late; which calls succeed; the content that was read; and the contents that a stop may leave in
/// sector 0 of the inner disk.
type Row = (u64, bool, bool, [bool; 4], Option<u8>, &'static [u8]);

const FUSES: [Row; 18] = [
    (0, false, false, [true, true, true, true], Some(2), &[1, 2]),
    (0, true, true, [true, true, true, true], Some(2), &[1, 2]),
    (1, false, false, [false, true, true, true], Some(2), &[0, 2]),
    (1, false, true, [false, true, true, true], Some(2), &[1, 2]),
    (1, true, false, [false, false, false, false], None, &[0]),
    (1, true, true, [false, false, false, false], None, &[0, 1]),
    (
        2,
        false,
        false,
        [true, false, true, true],
        Some(2),
        &[0, 1, 2],
    ),
    (2, false, true, [true, false, true, true], Some(2), &[1, 2]),
    (2, true, false, [true, false, false, false], None, &[0, 1]),
    (2, true, true, [true, false, false, false], None, &[1]),
    (3, false, false, [true, true, false, true], Some(1), &[1]),
    (3, false, true, [true, true, false, true], Some(2), &[1, 2]),
    (3, true, false, [true, true, false, false], None, &[1]),
    (3, true, true, [true, true, false, false], None, &[1, 2]),
    (4, false, false, [true, true, true, false], None, &[1, 2]),
    (4, true, true, [true, true, true, false], None, &[1, 2]),
    (5, false, false, [true, true, true, true], Some(2), &[1, 2]),
    (5, true, true, [true, true, true, true], Some(2), &[1, 2]),
];

// Returns whether a fuse over a disk of two sectors has the results of its row.
fn is_row(alloc: Global, row: Row) -> bool {
    let (call, forever, late, succeed, content, left_inside) = row;
    let Ok(disk) = Memory::new(alloc, 2) else {
        return false;
    };
    let mut fuse = Fuse::new(disk, call, forever, late);
    let two = fuse.sectors() == 2;
    let done = four_calls(&mut fuse);
    two && done == (succeed, content) && leaves(&Fuse::into_inner(fuse), 0, left_inside)
}

// Returns the first fuse that doesn't have the results of its row.
fn fused_otherwise(alloc: Global) -> Option<(u64, bool, bool)> {
    for row in &FUSES {
        if !is_row(alloc, *row) {
            return Some((row.0, row.1, row.2));
        }
    }
    None
}

#[test]
fn a_fuse_fails_the_planned_calls(rt: HostRuntime) {
    assert!(rt; fused_otherwise(rt.alloc()) == None);
}

#[test]
fn a_fuse_passes_on_the_failures_behind_it(rt: HostRuntime) -> Result<(), Fail> {
    let inner = Fuse::new(Memory::new(rt.alloc(), 1)?, 2, false, false);
    let mut fuse = Fuse::new(inner, 3, false, true);
    let done = four_calls(&mut fuse);
    let memory = fuse.into_inner().into_inner();
    assert!(rt; done == ([true, false, false, true], Some(2)) && choices(&memory, 0) == 3);
    Ok(())
}

#[test]
fn a_liar_gives_its_answers_in_turn_and_keeps_nothing(rt: HostRuntime) -> Result<(), Fail> {
    let answers = [[3; SECTOR_BYTES], [1; SECTOR_BYTES], [2; SECTOR_BYTES]];
    let mut liar = Liar::new(2, Vec::from_slice(rt.alloc(), &answers)?);
    let first = [read(&mut liar, 0), read(&mut liar, 0)];
    let second = [read(&mut liar, 1), read(&mut liar, 1)];
    let written = write(&mut liar, 1, 7) && liar.sync().is_ok();
    let fifth = read(&mut liar, 1);
    assert!(rt; (first, second) == ([Some(3), Some(1)], [Some(2), Some(3)]));
    assert!(rt; liar.sectors() == 2 && written && fifth == Some(1));
    Ok(())
}

#[test]
fn a_failure_says_what_failed(rt: HostRuntime) -> Result<(), Fail> {
    let text = format!(in rt.alloc(); "{}", DiskFault::Failed)?;
    assert!(rt; text.as_str() == "the disk failed");
    Ok(())
}
