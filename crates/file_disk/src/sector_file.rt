// A file of sectors.
ghost use Rattle.std.specs.Prelude.{◌≤◌, ◌+◌, Bool, IfErr, IsTrue, length};
ghost use Rattle.file_disk.specs.Length.{IsLengthFault};
ghost use Rattle.file_disk.specs.SectorFile.{FileFacts, moved, IsCounted, IsFileRead};
ghost use Rattle.file_disk.specs.SectorFile.{IsFileWrite, IsFileSync};
ghost use Rattle.file_disk.specs.SectorFile.{HoldsWhatIsRead, HasWholeContents};

use crate::open::OpenFault;
use sector_disk::SECTOR_BYTES;
use std::io;

/// A file of sectors of `SECTOR_BYTES` bytes, numbered from 0. It is open and keeps its length.
///
/// Reads return written contents immediately. The system brings written contents to the medium at
/// any time, sector by sector and in any order, and brings all of them there before a sync
/// succeeds. A file for which this is true is called honest; the clauses under `honest` hold for
/// it. A failed sync may have lost written contents, and later successful syncs don't report the
/// loss.
pub trait SectorFile {
    /// Whether files of this type are honest.
    ghost is_honest: { Bool };

    /// The facts about a file, which clauses use.
    ghost facts: { Self → FileFacts };

    /// Returns the number of sectors.
    fn count_sectors(&mut self) -> Result<u32, OpenFault>
        ensures honest { IsTrue is_honest → IsCounted (facts self.old) (facts self.new) result }
        ensures length { IfErr result IsLengthFault };

    /// Reads sector `at` and the sectors after it into `into`. Returns the number of sectors that
    /// were read, whose contents are at the front of `into`.
    fn read_at(&mut self, at: u32, into: &mut [[u8; SECTOR_BYTES]]) -> io::Result<usize>
        requires inside { IsTrue is_honest → at + length into.old ≤ (facts self.old).sectors }
        ensures bound { moved result ≤ length into.old }
        ensures honest { IsTrue is_honest
            → IsFileRead (facts self.old) (facts self.new) at into.new result };

    /// Writes the sectors of `from` to sector `at` and the sectors after it. Returns the number of
    /// sectors that were written, counted from the front of `from`. If this is only a part of
    /// `from`, the caller passes the rest, from the beginning of its first sector, to another call.
    fn write_at(&mut self, at: u32, from: &[[u8; SECTOR_BYTES]]) -> io::Result<usize>
        requires inside { IsTrue is_honest → at + length from.now ≤ (facts self.old).sectors }
        ensures bound { moved result ≤ length from.now }
        ensures honest { IsTrue is_honest
            → IsFileWrite (facts self.old) (facts self.new) at from.now result };

    /// Brings all written contents to the medium.
    fn sync(&mut self) -> io::Result<()>
        ensures honest { IsTrue is_honest
            → IsFileSync (facts self.old) (facts self.new) result };

    /// The contents that reads return are on the medium, or may reach it.
    ghost holds_now: { (file : Self) → IsTrue is_honest → HoldsWhatIsRead (facts file) };

    /// The medium has only whole sectors.
    ghost whole_sectors: { (file : Self) → IsTrue is_honest → HasWholeContents (facts file) };
}
