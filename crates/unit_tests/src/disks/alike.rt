// Makes the same random calls on a disk and on a disk in memory, and compares the answers.
use crate::disks::random::next;
use crate::disks::stops::{read, write};
use sector_disk::{Disk, Memory};

/// A call of a disk.
#[derive(Clone, Copy)]
enum Call {
    Read,
    Write(u8),
    Sync,
}

// Makes one call on both disks. Returns whether both answer it in the same way, and neither a write
// nor a sync fails.
fn is_alike<D: Disk>(disk: &mut D, memory: &mut Memory, at: u32, call: Call) -> bool {
    match call {
        Call::Read => read(disk, at) == read(memory, at),
        Call::Write(content) => write(disk, at, content) && write(memory, at, content),
        Call::Sync => disk.sync().is_ok() && memory.sync().is_ok(),
    }
}

// Returns the next random call: one in three is a read, and one in fifteen is a sync.
fn next_call(state: &mut u64) -> Call {
    let content = (next(state) % 251) as u8;
    match next(state) % 30 {
        0..10 => Call::Read,
        10..28 => Call::Write(content),
        _ => Call::Sync,
    }
}

/// Makes `calls` calls on both disks. About three in four use the sector after the last one used.
/// Returns whether both disks answer all calls in the same way.
pub(crate) fn call_both<D: Disk>(disk: &mut D, memory: &mut Memory, calls: u32) -> bool {
    let mut state = 88_172_645_463_325_252;
    let mut at = 0u32;
    for _ in 0..calls {
        let far = next(&mut state) % memory.sectors().max(1);
        at = at.saturating_add(1);
        if at >= memory.sectors() || next(&mut state) % 4 == 0 {
            at = far;
        }
        if !is_alike(disk, memory, at, next_call(&mut state)) {
            return false;
        }
    }
    true
}

/// Returns whether both disks have the same number of sectors, with the same contents.
pub(crate) fn are_same<D: Disk>(disk: &mut D, memory: &mut Memory) -> bool {
    for at in 0..memory.sectors() {
        if read(disk, at) != read(memory, at) {
            return false;
        }
    }
    disk.sectors() == memory.sectors()
}
