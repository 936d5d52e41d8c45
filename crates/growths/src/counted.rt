// A disk in memory whose calls can be counted afterwards.

use sector_disk::{Disk, Fuse, Memory, SECTOR_BYTES};

// A number of calls that is greater than that of any part of the run.
const MANY: u64 = 1_000;

/// Returns the disk with a counter of its calls: call number `MANY` is the first that fails.
pub(crate) fn counted(disk: Memory) -> Fuse<Memory> {
    Fuse::new(disk, MANY, true, false)
}

/// Returns the number of calls of a disk so far. To find this number, reads the disk until a read
/// fails.
pub(crate) fn calls(disk: &mut Fuse<Memory>) -> u64 {
    let mut sector = [0; SECTOR_BYTES];
    for more in 1..=MANY {
        if disk.sectors() == 0 || disk.read(0, &mut sector).is_err() {
            return MANY.saturating_sub(more);
        }
    }
    0
}

// The number of calls in words. The index is the number.
const CALLS: [&str; 12] = [
    "no call of the disk,",
    "1 call of the disk,",
    "2 calls of the disk,",
    "3 calls of the disk,",
    "4 calls of the disk,",
    "5 calls of the disk,",
    "6 calls of the disk,",
    "7 calls of the disk,",
    "8 calls of the disk,",
    "9 calls of the disk,",
    "10 calls of the disk,",
    "11 calls of the disk,",
];

/// Returns the number of calls in words.
pub(crate) fn calls_word(calls: u64) -> &'static str {
    match CALLS.get(calls as usize) {
        Some(word) => word,
        None => "more calls of the disk,",
    }
}
