// Reads a file.

ghost use Rattle.std.specs.Prelude.{◌≡◌, ◌<◌, ◌≤◌, IfOk, IfSome, MatchOption, length, take};
ghost use Rattle.std.specs.Io.KnownBytes.{Consumes, IsAtEnd, Keeps};
ghost use Rattle.program_parts.specs.File.{read_limit};
ghost use Rattle.program_parts.specs.declared.file.FileFault.TheVariants.{OutOfMemory};

use std::alloc::{AllocError, Global};
use std::fs::File;
use std::io::{ErrorKind, Read};
use std::rt::Files;

/// The limit for the length of a file, in bytes. A file of 1 GiB or more isn't read, so a device
/// without an end is a file that can't be read.
const READ_LIMIT: usize = 0x4000_0000;

/// The maximum number of bytes that one read requests.
const PAGE: usize = 0x10000;

/// The reason why a file wasn't read.
#[derive(Clone, Copy, Debug, PartialEq, Eq)]
pub enum FileFault {
    /// The file can't be opened or read, or it is too long.
    CannotRead,
    /// Memory was refused.
    OutOfMemory,
}

/// Reads the whole file at `path`, once.
pub fn read_file<R: Files>(rt: &R, alloc: Global, path: &str) -> Result<Vec<u8>, FileFault>
    ensures { IfOk result (λ bytes. length bytes.items < read_limit) }
{
    match File::open(rt, path) {
        Ok(mut file) => read_all(alloc, &mut file, READ_LIMIT),
        Err(_) => Err(FileFault::CannotRead),
    }
}

// Reads once into a page, and returns the number of bytes that were read, which is 0 only at the
// end of the file. Returns `None` if a signal interrupted the read.
fn read_page<F: Read>(file: &mut F, page: &mut [u8; PAGE]) -> Result<Option<usize>, FileFault>
    ensures most { IfOk result (λ count. IfSome count (λ n. n ≤ 65536)) }
    ensures bytes { IfOk result (λ count. MatchOption count
        (Keeps (F.remaining file.old) (F.remaining file.new))
        (λ n. Consumes (F.remaining file.old) (F.remaining file.new) (take n page.new)
        × (n ≡ 0 → IsAtEnd (F.remaining file.new)))) }
{
    match file.read(page) {
        Ok(count) => Ok(Some(count)),
        Err(fault) if fault.kind() == ErrorKind::Interrupted => Ok(None),
        Err(_) => Err(FileFault::CannotRead),
    }
}

/// Reads a file to its end if it has fewer than `limit` bytes, and otherwise returns an error.
/// Reads through a page on the stack, so that refused memory can be distinguished from a failed
/// read.
pub fn read_all<F: Read>(alloc: Global, file: &mut F, limit: usize) -> Result<Vec<u8>, FileFault>
    ensures short { IfOk result (λ bytes. length bytes.items < limit) }
    // If the remaining bytes of the reader are known, the result has all of them.
    ensures whole { IfOk result (λ bytes.
        IfSome (F.remaining file.old) (λ all. bytes.items ≡ all)) }
{
    let mut bytes = Vec::new(alloc);
    let mut page = [0u8; PAGE];
    // Each round reads a page, returns, or was interrupted by a signal. The bound is never reached:
    // 2^64 calls would take centuries.
    for _ in 0..u64::MAX {
        match read_page(file, &mut page)? {
            Some(count) if count >= limit - bytes.len() => return Err(FileFault::CannotRead),
            Some(0) => return Ok(bytes),
            Some(count) => bytes.extend_from_slice(&page[..count])?,
            None => {}
        }
    }
    Err(FileFault::CannotRead)
}

impl From<AllocError> for FileFault {
    ghost from_gives = { λ _ fault. fault ≡ OutOfMemory };

    fn from(_refused: AllocError) -> FileFault {
        FileFault::OutOfMemory
    }
}
