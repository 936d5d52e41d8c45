// Moves sectors to and from a file, with as many calls as necessary.
ghost use Rattle.std.specs.Prelude.{◌≡◌, ◌<◌, ◌≤◌, ◌+◌, ◌^◌, false, IsTrue, OnOk, OnErr, length};
ghost use Rattle.file_disk.specs.inside.Transfer.{IsWrittenAt, IsReadAt};

use crate::sector_file::SectorFile;
use sector_disk::{DiskFault, SECTOR_BYTES};
use std::io::ErrorKind;

/// Writes all sectors of `from` to sector `at` and the sectors after it, even if the file accepts
/// only a few sectors at a time, or a signal interrupts a call.
pub(crate) fn write_all<F: SectorFile>(
    file: &mut F,
    at: u32,
    from: &[[u8; SECTOR_BYTES]],
) -> Result<(), DiskFault>
    requires fits { at + length from.now < 2 ^ 32 }
    requires inside { IsTrue F.is_honest
        → at + length from.now ≤ (F.facts file.old).sectors }
    requires trusted { IsTrue F.is_honest → (F.facts file.old).sync_failed ≡ false }
    ensures ok { IsTrue F.is_honest → OnOk result (IsWrittenAt at from.now (length from.now)
        (F.facts file.old) (F.facts file.new)) }
    ensures err { IsTrue F.is_honest → OnErr result (IsWrittenAt at from.now 0
        (F.facts file.old) (F.facts file.new)) }
    ensures failed { IsTrue F.is_honest → OnErr result
        ((F.facts file.old).failures < (F.facts file.new).failures) }
{
    let mut done = 0;
    // Each round writes a sector, returns, or was interrupted by a signal. The bound is there so
    // that the loop has an end: 2^64 signals would take centuries.
    for _ in 0..u64::MAX {
        if done >= from.len() {
            return Ok(());
        }
        match file.write_at(at + done as u32, &from[done..]) {
            Ok(0) => return Err(DiskFault::Failed),
            Ok(more) => done += more,
            Err(e) => {
                if e.kind() != ErrorKind::Interrupted {
                    return Err(DiskFault::Failed);
                }
            }
        }
    }
    Err(DiskFault::Failed)
}

/// Reads sectors until `most` sectors have been read, a call returns no sector, or a read fails.
/// Returns the number of sectors that were read.
pub(crate) fn read_most<F: SectorFile>(
    file: &mut F,
    at: u32,
    into: &mut [[u8; SECTOR_BYTES]],
    most: usize,
) -> usize
    requires room { most ≤ length into.old }
    requires fits { at + most < 2 ^ 32 }
    requires inside { IsTrue F.is_honest → at + most ≤ (F.facts file.old).sectors }
    requires trusted { IsTrue F.is_honest → (F.facts file.old).sync_failed ≡ false }
    ensures size { length into.new ≡ length into.old }
    ensures most { result ≤ most }
    ensures honest { IsTrue F.is_honest
        → IsReadAt at into.new result (F.facts file.old) (F.facts file.new) }
    ensures none { IsTrue F.is_honest → 0 < most → result ≡ 0
        → (F.facts file.old).failures < (F.facts file.new).failures }
{
    let mut count = 0;
    // Each round reads a sector, returns, or was interrupted by a signal, as in `write_all`.
    for _ in 0..u64::MAX {
        if count >= most {
            return count;
        }
        match file.read_at(at + count as u32, &mut into[count..most]) {
            Ok(0) => return count,
            Ok(more) => count += more,
            Err(e) => {
                if e.kind() != ErrorKind::Interrupted {
                    return count;
                }
            }
        }
    }
    count
}
