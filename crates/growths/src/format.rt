// Formats a disk.

use crate::counted::{calls, calls_word, counted};
use crate::run::Went;
use crate::words::Words;
use registry::Registry;
use sector_disk::{Fuse, Memory};
use std::alloc::{AllocError, Global};
use store::StoreRefusal;

/// The number of sectors of each disk.
const SECTORS: u32 = 16;

/// Makes a disk of zeros.
pub(crate) fn zeros(alloc: Global) -> Result<Memory, AllocError> {
    Memory::new(alloc, SECTORS)
}

/// Returns the code of the refusal of an opening or a format.
pub(crate) fn refusal_word(refusal: StoreRefusal) -> &'static str {
    match refusal {
        StoreRefusal::Device => "S1",
        StoreRefusal::AlreadyFormatted => "S4",
        StoreRefusal::OutOfMemory => "S11",
        _ => "another refusal",
    }
}

// Formats a disk after a refused format, and returns the answer.
fn again(alloc: Global, disk: Memory) -> &'static str {
    match Registry::format(alloc, counted(disk)) {
        Ok(registry) => {
            let _ = registry.into_disk();
            "ok"
        }
        Err((refusal, _)) => refusal_word(refusal),
    }
}

// Returns the report about a format that was refused.
fn refused(alloc: Global, refusal: StoreRefusal, disk: Fuse<Memory>) -> Words {
    let mut disk = disk;
    let mut words = Words::of("format:");
    words.push(refusal_word(refusal));
    words.push(calls_word(calls(&mut disk)));
    words.push("again:");
    words.push(again(alloc, disk.into_inner()));
    words
}

/// Formats a disk, and returns it, or a report if the format was refused.
pub(crate) fn format(alloc: Global) -> Result<Went, AllocError> {
    match Registry::format(alloc, counted(zeros(alloc)?)) {
        Ok(registry) => Ok(Went::On(registry.into_disk().into_inner())),
        Err((refusal, disk)) => Ok(Went::Otherwise(refused(alloc, refusal, disk))),
    }
}
