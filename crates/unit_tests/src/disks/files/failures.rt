// Tests of disks over files that fail.

use crate::disks::files::fake::{Fake, Plan, WELL, disk, reopened};
use crate::disks::stops::{read, write};
use file_disk::FileDisk;
use sector_disk::Disk;
use std::alloc::Global;

// Makes eight calls: writes, syncs, and more writes. Returns which of them succeed. After the first
// failure, no write and no sync may succeed.
fn eight_calls(disk: &mut FileDisk<Fake>) -> [bool; 8] {
    [
        write(disk, 1, 11),
        write(disk, 2, 12),
        write(disk, 6, 16),
        write(disk, 4, 14),
        disk.sync().is_ok(),
        write(disk, 3, 13),
        disk.sync().is_ok(),
        disk.sync().is_ok(),
    ]
}

// Returns the contents of sectors 1, 2, 3 and 6.
fn four_sectors(disk: &mut FileDisk<Fake>) -> [Option<u8>; 4] {
    [read(disk, 1), read(disk, 2), read(disk, 3), read(disk, 6)]
}

// Returns whether exactly the first `count` calls succeeded.
fn are_first(done: [bool; 8], count: usize) -> bool {
    for (call, is_done) in done.iter().enumerate() {
        if *is_done != (call < count) {
            return false;
        }
    }
    true
}

// Returns whether a sector that was written over zeros has zeros or the new content.
fn is_old_or_new(found: Option<u8>, new: u8) -> bool {
    found == Some(0) || found == Some(new)
}

// Returns whether each written sector of the file, after it is opened again, has its old or its new
// content, and whether the file can be written again.
fn works_again(alloc: Global, file: Fake) -> bool {
    let Some(mut again) = reopened(alloc, file) else {
        return false;
    };
    let [one, two, three, six] = four_sectors(&mut again);
    let works = write(&mut again, 5, 15) && again.sync().is_ok();
    works
        && is_old_or_new(one, 11)
        && is_old_or_new(two, 12)
        && is_old_or_new(three, 13)
        && is_old_or_new(six, 16)
}

// Makes call number `fails` of the file fail. Returns whether the disk's calls fail from call
// number `failed` on, and whether its sectors then have `contents`. Only a sector in the buffer can
// still be read.
fn fails_so(alloc: Global, fails: u64, failed: usize, contents: [Option<u8>; 4]) -> bool {
    let Some(mut disk) = disk(alloc, 8, Plan { fails, ..WELL }) else {
        return false;
    };
    let done = are_first(eight_calls(&mut disk), failed);
    let read = four_sectors(&mut disk) == contents;
    let again = works_again(alloc, disk.into_file());
    done && read && again
}

// After the opening, the calls of the file are: 2 length, 3 write of sectors 1 and 2, 4 write of 6;
// 5 length, 6 write of 4, 7 sync; 8 length, 9 write of 3, 10 sync; 11 length, 12 sync.
//
// Each row has the number of the file's call that fails (0: none), the index in `eight_calls` of
// the first call that then fails (8: none), and the contents that reads of sectors 1, 2, 3 and 6
// return afterwards. Only sectors in the buffer can then be read.
const CALLS: [(u64, usize, [Option<u8>; 4]); 12] = [
    (2, 2, [Some(11), Some(12), None, None]),
    (3, 2, [Some(11), Some(12), None, None]),
    (4, 3, [None, None, None, Some(16)]),
    (5, 4, [None; 4]),
    (6, 4, [None; 4]),
    (7, 4, [None; 4]),
    (8, 6, [None, None, Some(13), None]),
    (9, 6, [None, None, Some(13), None]),
    (10, 6, [None, None, Some(13), None]),
    (11, 7, [None; 4]),
    (12, 7, [None; 4]),
    (0, 8, [Some(11), Some(12), Some(13), Some(16)]),
];

// Returns the number of the first failing call in `CALLS` whose effect isn't the expected one.
fn fails_otherwise(alloc: Global) -> Option<u64> {
    for (fails, failed, contents) in &CALLS {
        if !fails_so(alloc, *fails, *failed, *contents) {
            return Some(*fails);
        }
    }
    None
}

#[test]
fn a_failure_is_that_of_its_call_and_of_all_later_ones(rt: HostRuntime) {
    assert!(rt; fails_otherwise(rt.alloc()) == None);
}

// Reads sector 0 and then sector `second` of a disk over a file with this plan. Returns their
// contents, and whether sector 1 can then be written and synced.
fn read_and_write(alloc: Global, plan: Plan, second: u32) -> Option<([Option<u8>; 2], bool)> {
    let mut disk = disk(alloc, 8, plan)?;
    let reads = [read(&mut disk, 0), read(&mut disk, second)];
    Some((reads, write(&mut disk, 1, 5) && disk.sync().is_ok()))
}

// A read that fails halfway returns the sectors before the failure. The third call of the file
// reads sector 1, and the fourth fails.
#[test]
fn a_read_that_fails_halfway_gives_what_it_read(rt: HostRuntime) {
    let plan = Plan {
        most: 1,
        interrupts: true,
        fails: 4,
    };
    let answers = read_and_write(rt.alloc(), plan, 1);
    assert!(rt; answers == Some(([Some(0), Some(0)], true)));
}

#[test]
fn a_read_that_fails_lets_the_disk_be(rt: HostRuntime) {
    let answers = read_and_write(rt.alloc(), Plan { fails: 2, ..WELL }, 0);
    assert!(rt; answers == Some(([None, Some(0)], true)));
}
