// Makes the same calls on a disk over a file and on a disk in memory, and compares the answers.

use crate::disks::alike::{are_same, call_both};
use crate::disks::files::fake::{Fake, Plan, WELL, disk, reopened};
use crate::disks::stops::{fill, is_filled, read, write};
use file_disk::{CallOutcome, FileDisk, FilePlan, MemoryFile, OpenFault};
use sector_disk::{Disk, Memory};
use std::alloc::Global;

// Returns whether the file, after it is opened again, has the same contents as the disk in memory.
fn holds(alloc: Global, file: Fake, memory: &mut Memory) -> bool {
    match reopened(alloc, file) {
        Some(mut again) => are_same(&mut again, memory),
        None => false,
    }
}

// Returns whether a disk over a file with this plan answers `calls` calls as the disk in memory
// does, and whether the file then has the same contents.
fn is_as(alloc: Global, memory: &mut Memory, plan: Plan, calls: u32) -> bool {
    let Some(mut file) = disk(alloc, memory.sectors(), plan) else {
        return false;
    };
    let alike = call_both(&mut file, memory, calls);
    let synced = file.sync().is_ok();
    let file = file.into_file();
    let all_synced = file.synced == file.writes;
    let held = holds(alloc, file, memory);
    alike && synced && all_synced && held
}

// Returns whether a disk over a file with this plan behaves as a disk in memory of `sectors`
// sectors does.
fn is_as_memory(alloc: Global, sectors: u32, plan: Plan, calls: u32) -> bool {
    match Memory::new(alloc, sectors) {
        Ok(mut memory) => is_as(alloc, &mut memory, plan, calls),
        Err(_) => false,
    }
}

#[test]
fn the_buffers_give_what_a_disk_in_memory_gives(rt: HostRuntime) {
    let short = Plan {
        most: 1,
        interrupts: true,
        fails: 0,
    };
    let small = is_as_memory(rt.alloc(), 9, WELL, 2_000);
    let large = is_as_memory(rt.alloc(), 200, short, 3_000);
    assert!(rt; small && large);
}

// Reads a file of 5,000 sectors, and then the file's first 129 sectors again. If each sector has
// the content with which it was filled, returns the number of calls of the file.
fn read_all(alloc: Global, file: Fake) -> Option<u64> {
    let mut disk = reopened(alloc, file)?;
    let mut filled = disk.sectors() == 5_000 && is_filled(&mut disk);
    for at in 0..129 {
        filled = read(&mut disk, at) == Some(at as u8) && filled;
    }
    let reads = disk.into_file().reads;
    filled.then_some(reads)
}

// Makes a file of 5,000 sectors, and fills each with its number modulo 251.
fn filled(alloc: Global) -> Option<Fake> {
    let mut disk = disk(alloc, 5_000, WELL)?;
    let filled = fill(&mut disk) && disk.sync().is_ok();
    filled.then_some(disk.into_file())
}

// Fills a file of 5,000 sectors. Returns four numbers: the writes; the writes before the sync; the
// reads while the file was filled; and the reads of a later pass over the whole file.
fn fill_and_read(alloc: Global) -> Option<[u64; 4]> {
    let file = filled(alloc)?;
    let [writes, synced, reads] = [file.writes, file.synced, file.reads];
    let again = read_all(alloc, file)?;
    Some([writes, synced, reads, again])
}

#[test]
fn neighbours_go_out_together_and_are_read_together(rt: HostRuntime) {
    // Filling makes 19 writes of 128 KiB and one of the rest, and then the sync. Reading makes
    // reads of 8, 16, .. 128 sectors, 18 reads of 256, and one of the rest. After the return to the
    // first sector, it makes one read of 128 sectors and one more read.
    assert!(rt; fill_and_read(rt.alloc()) == Some([20, 20, 0, 26]));
}

// Returns the contents of sectors 3 and 4 after the file is opened again.
fn three_and_four(alloc: Global, file: Fake) -> [Option<u8>; 2] {
    match reopened(alloc, file) {
        Some(mut again) => [read(&mut again, 3), read(&mut again, 4)],
        None => [None; 2],
    }
}

// Writes sectors 3 and 4, makes a sync, and writes sector 4 again. If all calls succeed, returns
// the content that sector 4 then has.
fn write_and_wait<D: Disk>(disk: &mut D) -> Option<u8> {
    let written = write(disk, 3, 7) && write(disk, 4, 8);
    let synced = disk.sync().is_ok() && write(disk, 4, 9);
    let waits = read(disk, 4);
    if written && synced { waits } else { None }
}

// Returns the buffered content of sector 4, the file's content of sector 3, and the contents of
// both after the file is opened again.
fn waiting_and_kept(alloc: Global) -> Option<[Option<u8>; 4]> {
    let mut first = disk(alloc, 8, WELL)?;
    let waits = write_and_wait(&mut first);
    let file = first.into_file();
    let given = file.sectors.get(3).map(|content| content[0]);
    let [three, four] = three_and_four(alloc, file);
    Some([waits, given, three, four])
}

#[test]
fn what_is_not_synced_is_lost_and_what_is_stays(rt: HostRuntime) {
    let wanted = [Some(9), Some(7), Some(7), Some(8)];
    assert!(rt; waiting_and_kept(rt.alloc()) == Some(wanted));
}

// Each row has the number of sectors of an honest file, the number of the file's call that fails,
// and the result of making a disk over the file: the disk's number of sectors, or the fault.
const OVER: [(u32, u64, Result<u32, OpenFault>); 5] = [
    (0, 0, Ok(0)),
    (1, 0, Ok(1)),
    (8, 0, Ok(8)),
    (8, 2, Ok(8)),
    (8, 1, Err(OpenFault::CannotOpen)),
];

// Makes a disk over a file of `sectors` sectors. The file's call number `call` fails. Returns the
// disk's number of sectors.
fn over(alloc: Global, sectors: u32, call: u64) -> Result<u32, OpenFault> {
    let outcome = CallOutcome {
        most: 0,
        fails: true,
    };
    let plan = FilePlan {
        call,
        outcome,
        forever: false,
    };
    let file = MemoryFile::new(Memory::new(alloc, sectors)?, plan);
    let disk: FileDisk<MemoryFile> = FileDisk::over(alloc, file)?;
    Ok(disk.sectors())
}

// Returns the index of the first row of `OVER` whose result isn't the expected one.
fn over_otherwise(alloc: Global) -> Option<usize> {
    for (line, (sectors, call, answer)) in OVER.iter().enumerate() {
        if over(alloc, *sectors, *call) != *answer {
            return Some(line);
        }
    }
    None
}

#[test]
fn an_honest_file_is_opened_unless_its_count_fails(rt: HostRuntime) {
    assert!(rt; over_otherwise(rt.alloc()) == None);
}
