// Counts the calls of a disk. Only clauses read the count, which has no bytes at run time.
ghost use Rattle.std.specs.Prelude.{◌≡◌, ◌+◌, ℕ, OnOk, OnErr};
ghost use Rattle.sector_disk.specs.CallCount.{calls_made, calls_failed, unknown_disk};
ghost use Rattle.sector_disk.specs.Disk.{IsCall};

use crate::disk::DiskFault;
use crate::past::Past;

/// The number of calls that were made to a disk, and the number of those that failed. Only clauses
/// read it, and it has no bytes at run time. A disk of another crate contains a `CallCount`, and
/// records each read, write and sync in it, to meet the clauses `calls` of `Disk`.
#[derive(Drop)]
pub struct CallCount {
    // Whether each call failed, the oldest first.
    failed: Past<bool>,
}

impl CallCount {
    /// Makes a count for a disk to which no call was made.
    pub fn new() -> CallCount
        ensures made { calls_made result ≡ 0 }
        ensures failed { calls_failed result ≡ 0 }
    {
        CallCount {
            failed: Past::new(),
        }
    }

    /// Counts a call that ended with `reply`.
    pub fn end_call(&mut self, reply: &Result<(), DiskFault>)
        ensures made { calls_made self.new ≡ calls_made self.old + 1 }
        ensures ok { OnOk reply.now (calls_failed self.new ≡ calls_failed self.old) }
        ensures err { OnErr reply.now (calls_failed self.new ≡ calls_failed self.old + 1) }

        // The count changes as it does in one call of any disk.
        ensures call { (sectors : ℕ)
            → IsCall (unknown_disk sectors self.old) (unknown_disk sectors self.new) reply.now }
    {
        self.failed = self.failed.and(&reply.is_err());
    }
}
