// Moves sectors to and from a disk in memory.
ghost use Rattle.std.specs.Prelude.{◌≡◌, ◌<◌, ◌≤◌, ◌+◌, ℕ, true, false, length};
ghost use Rattle.sector_disk.specs.Disk.{sector, LeavesNoMore, LeavesNowAlone};
ghost use Rattle.sector_disk.specs.Memory.{memory_facts};
ghost use Rattle.file_disk.specs.Medium.{HasWritten, IsWholeUnlessFailed, IsSameMedium};

use sector_disk::{Disk, Memory, SECTOR_BYTES};

/// Writes the contents `from` to sector `at` and the sectors after it, until memory is refused.
/// Returns the number of sectors that were written.
pub(crate) fn put(medium: &mut Memory, at: u32, from: &[[u8; SECTOR_BYTES]]) -> usize
    requires inside { at + length from.now ≤ (memory_facts medium.old).sectors }
    ensures few { result ≤ length from.now }
    ensures written { HasWritten at from.now result
        (memory_facts medium.old) (memory_facts medium.new) }
    ensures cause { IsWholeUnlessFailed result (length from.now)
        (memory_facts medium.old) (memory_facts medium.new) }
{
    let mut done = 0;
    for content in from {
        match medium.write(at + done as u32, content) {
            Ok(()) => done += 1,
            Err(_) => return done,
        }
    }
    done
}

/// Reads sector `at` and the sectors after it into `into`.
pub(crate) fn get(medium: &mut Memory, at: u32, into: &mut [[u8; SECTOR_BYTES]])
    requires inside { at + length into.old ≤ (memory_facts medium.old).sectors }
    ensures still { IsSameMedium (memory_facts medium.old) (memory_facts medium.new) }
    ensures read { (i : ℕ) → i < length into.old
        → sector into.new i ≡ sector (memory_facts medium.old).now (at + i) }
{
    for (i, content) in into.iter_mut().enumerate() {
        let _ = medium.read(at + i as u32, content);
    }
}

/// Syncs the medium if `works` is true, so that it has everything that was written. Otherwise does
/// nothing.
pub(crate) fn sync_if(medium: &mut Memory, works: bool)
    ensures sectors { (memory_facts medium.new).sectors ≡ (memory_facts medium.old).sectors }
    ensures now { (memory_facts medium.new).now ≡ (memory_facts medium.old).now }
    ensures stop { LeavesNoMore (memory_facts medium.old) (memory_facts medium.new) }
    ensures done { works ≡ true → LeavesNowAlone (memory_facts medium.new) }
    ensures not_done { works ≡ false → medium.new ≡ medium.old }
{
    if works {
        let _ = medium.sync();
    }
}
