// Computes the mixtures that a stop may leave of a disk.

use anyhow::Result;
use sector_disk::{Disk, Memory, SECTOR_BYTES};
use std::alloc::Global;

/// Returns the picks of each mixture: the number of the content that each sector keeps. Each sector
/// with unsynced writes multiplies the number of mixtures by the number of its contents.
pub(crate) fn all_picks(alloc: Global, disk: &Memory) -> Result<Vec<Vec<usize>>> {
    let mut all = Vec::new(alloc);
    all.push(vec![in alloc; 0; disk.sectors() as usize]?)?;
    for at in 0..disk.sectors() {
        let choices = if at < disk.sectors() {
            disk.choices(at)
        } else {
            1
        };
        let count = all.len();
        for choice in 1..choices {
            for number in 0..count {
                let Some(first) = all.get(number) else {
                    continue;
                };
                let mut picks = Vec::from_slice(alloc, first)?;
                if let Some(pick) = picks.get_mut(at as usize) {
                    *pick = choice;
                }
                all.push(picks)?;
            }
        }
    }
    Ok(all)
}

/// Returns the disk after a stop. Each sector keeps the content whose number is in `picks`. If
/// there are more sectors than picks, the picks are repeated.
pub(crate) fn stopped(disk: &Memory, picks: &[usize]) -> Result<Memory> {
    Ok(
        disk.copy()?.stop(|at, _| {
            let place = (at as usize).checked_rem(picks.len()).unwrap_or(0);
            picks.get(place).copied().unwrap_or(0)
        }),
    )
}

// Returns the bytes of a disk.
fn bytes_of(alloc: Global, disk: Memory) -> Result<Vec<u8>> {
    let mut disk = disk;
    let mut bytes = Vec::new(alloc);
    for at in 0..disk.sectors() {
        let mut sector = [0; SECTOR_BYTES];
        if at < disk.sectors() {
            disk.read(at, &mut sector)?;
        }
        bytes.extend_from_slice(&sector)?;
    }
    Ok(bytes)
}

// Returns whether a stop with these picks leaves the same bytes on both disks.
fn stop_same(alloc: Global, one: &Memory, other: &Memory, picks: &[usize]) -> Result<bool> {
    let left = bytes_of(alloc, stopped(one, picks)?)?;
    Ok(left == bytes_of(alloc, stopped(other, picks)?)?)
}

/// Returns whether a stop leaves the same bytes on both disks, with any picks.
pub(crate) fn leave_same(alloc: Global, one: &Memory, other: &Memory) -> Result<bool> {
    let picks = all_picks(alloc, one)?;
    let mut right = picks == all_picks(alloc, other)?;
    for picks in &picks {
        right = right && stop_same(alloc, one, other, picks)?;
    }
    Ok(right)
}
