// A disk over given bytes that can't be changed.
ghost use Rattle.std.specs.Prelude.{◌≡◌, ◌<◌, ◌^◌, All, length};
ghost use Rattle.sector_disk.specs.Disk.{IsWhole};

use crate::given::sectors_of;
use sector_disk::{CallCount, Disk, DiskFault, SECTOR_BYTES};

/// An honest disk for reading, over sectors that its caller gives: reads and syncs succeed, and
/// each write fails. It allocates no memory, and each call takes constant time.
#[derive(Drop)]
pub struct ReadOnlyDisk<'a> {
    start: &'a [[u8; SECTOR_BYTES]],
    calls: CallCount,
    ghost few: { length start.now < 2 ^ 32 },
    ghost whole: { All IsWhole start.now },
}

impl<'a> ReadOnlyDisk<'a> {
    ghost use Rattle.std.specs.Prelude.{◌↔◌, IsSome, IfSome};
    ghost use Rattle.sector_disk.specs.Disk.{StartsWith};
    ghost use Rattle.byte_disk.specs.Bytes.{IsDiskLength, sectors_in};
    ghost use Rattle.byte_disk.specs.ReadOnlyDisk.{read_only_facts};

    /// Makes a disk over `bytes`, if they are whole sectors and fewer than 2^32 sectors.
    pub fn over(bytes: &'a [u8]) -> Option<ReadOnlyDisk<'a>>
        ensures some { IsSome result ↔ IsDiskLength (length bytes.now) }
        ensures starts { IfSome result (λ disk.
            StartsWith (read_only_facts disk) (sectors_in bytes.now)) }
    {
        let Some(start) = sectors_of(bytes) else {
            return None;
        };
        Some(ReadOnlyDisk {
            start,
            calls: CallCount::new(),
        })
    }
}

impl<'a> Disk for ReadOnlyDisk<'a> {
    ghost use Rattle.std.specs.Prelude.{IsTrue, IsOk, IsErr};
    ghost use Rattle.sector_disk.specs.Disk.{IsCall, IsRead, IsWrite, IsSync, IsUnchanged};
    ghost use Rattle.byte_disk.specs.ReadOnlyDisk.{read_only_facts};
    ghost use Rattle.byte_disk.specs.inside.ReadOnly.{read_only_holds, read_only_whole};

    ghost facts = { read_only_facts };

    ghost holds_now = { λ disk honest. read_only_holds disk };

    ghost whole_sectors = { λ disk honest. read_only_whole disk };

    fn sectors(&self) -> u32 {
        self.start.len() as u32
    }

    /// Never fails.
    fn read(&mut self, at: u32, into: &mut [u8; SECTOR_BYTES]) -> Result<(), DiskFault>
        requires { at < (read_only_facts self.old).sectors }
        ensures calls { IsCall (read_only_facts self.old) (read_only_facts self.new) result }
        ensures honest { IsTrue (read_only_facts self.old).honest
            → IsRead (read_only_facts self.old) (read_only_facts self.new) at into.new result }
        ensures ok { IsOk result }
    {
        *into = self.start[at as usize];
        let reply = Ok(());
        self.calls.end_call(&reply);
        reply
    }

    /// Always fails, and changes nothing.
    fn write(&mut self, at: u32, from: &[u8; SECTOR_BYTES]) -> Result<(), DiskFault>
        requires { at < (read_only_facts self.old).sectors }
        ensures calls { IsCall (read_only_facts self.old) (read_only_facts self.new) result }
        ensures honest { IsTrue (read_only_facts self.old).honest
            → IsWrite (read_only_facts self.old) (read_only_facts self.new) at from.now result }
        ensures err { IsErr result }
    {
        let reply = Err(DiskFault::Failed);
        self.calls.end_call(&reply);
        reply
    }

    /// Never fails.
    fn sync(&mut self) -> Result<(), DiskFault>
        ensures calls { IsCall (read_only_facts self.old) (read_only_facts self.new) result }
        ensures honest { IsTrue (read_only_facts self.old).honest
            → IsSync (read_only_facts self.old) (read_only_facts self.new) result }
        ensures ok { IsOk result }
    {
        let reply = Ok(());
        self.calls.end_call(&reply);
        reply
    }
}
