// A disk of sectors. Each sector is written whole or not at all.
ghost use Rattle.std.specs.Prelude.{◌≡◌, ◌<◌, IsTrue};
ghost use Rattle.sector_disk.specs.Disk.{DiskFacts, IsCall, IsRead, IsWrite, IsSync};
ghost use Rattle.sector_disk.specs.Disk.{HoldsNow, HasWholeSectors};

use thiserror::Error;

/// The number of bytes of a sector.
pub const SECTOR_BYTES: usize = 512;

/// A call of a disk failed.
#[derive(Clone, Copy, Debug, PartialEq, Eq, Error)]
pub enum DiskFault {
    #[error("the disk failed")]
    Failed,
}

/// A disk of sectors of `SECTOR_BYTES` bytes, numbered from 0.
///
/// A write reaches the medium at some time before the next successful sync, completely or not at
/// all. So a stop before that sync may leave a sector with its synced content, or with any content
/// that was written to it since. Clauses under `calls` hold for every disk. Clauses under `honest`
/// hold only for an honest disk: a disk that does what it reports.
pub trait Disk {
    /// The facts about a disk, which clauses use.
    ghost facts: { Self → DiskFacts };

    /// The number of sectors.
    fn sectors(&self) -> u32
        ensures { result ≡ (facts self.now).sectors };

    /// Reads sector `at` into `into`. If the result is `Err`, the content of `into` is unspecified.
    fn read(&mut self, at: u32, into: &mut [u8; SECTOR_BYTES]) -> Result<(), DiskFault>
        requires { at < (facts self.old).sectors }
        ensures calls { IsCall (facts self.old) (facts self.new) result }
        ensures honest { IsTrue (facts self.old).honest
            → IsRead (facts self.old) (facts self.new) at into.new result };

    /// Writes `from` to sector `at`. Until the next successful sync, a stop may leave the new
    /// content or an older one. If the result is `Err`, reads return the old content or the new
    /// one, and a stop may leave either.
    fn write(&mut self, at: u32, from: &[u8; SECTOR_BYTES]) -> Result<(), DiskFault>
        requires { at < (facts self.old).sectors }
        ensures calls { IsCall (facts self.old) (facts self.new) result }
        ensures honest { IsTrue (facts self.old).honest
            → IsWrite (facts self.old) (facts self.new) at from.now result };

    /// Brings all written contents to the medium. If the result is `Err`, reads return the same
    /// contents as before, and a stop may leave no other contents than before.
    fn sync(&mut self) -> Result<(), DiskFault>
        ensures calls { IsCall (facts self.old) (facts self.new) result }
        ensures honest { IsTrue (facts self.old).honest
            → IsSync (facts self.old) (facts self.new) result };

    /// The contents that reads return are one of the mixtures: a stop may leave them.
    ghost holds_now: { (disk : Self) → IsTrue (facts disk).honest → HoldsNow (facts disk) };

    /// Each content that reads return, or that a stop may leave, has as many bytes as a sector.
    ghost whole_sectors: { (disk : Self) → IsTrue (facts disk).honest
        → HasWholeSectors (facts disk) };
}
