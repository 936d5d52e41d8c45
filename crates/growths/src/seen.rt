// Compares the listing and the binds of a registry on a disk with the expected ones.

use crate::asked::ask;
use crate::counted::counted;
use crate::every_line::put_line;
use crate::format::zeros;
use crate::run::opened;
use crate::steps::STEPS;
use binders::Binders;
use commands::run_script_on_disk;
use registry::Registry;
use samples::{library, program};
use sector_disk::Memory;
use std::alloc::{AllocError, Global};

/// Returns the disk before command number `at`, if no growth was refused.
pub(crate) fn before(alloc: Global, at: usize) -> Result<Memory, AllocError> {
    let Ok(mut registry) = Registry::format(alloc, counted(zeros(alloc)?)) else {
        return Err(AllocError);
    };
    for (_, asked, _) in STEPS.iter().take(at) {
        let _ = ask(&mut registry, *asked);
    }
    Ok(registry.into_disk().into_inner())
}

// Returns a script of a listing and two binds: of a program that needs the library `a`, and of a
// program that needs no library.
fn looks(alloc: Global) -> Result<Vec<u8>, AllocError> {
    let mut lines = Vec::new(alloc);
    put_line(alloc, &mut lines, b"list", b"")?;
    put_line(alloc, &mut lines, b"bind 0x10000 ", &program(b'a'))?;
    put_line(alloc, &mut lines, b"bind 0x10000 ", &library(b'p', 0))?;
    Ok(lines)
}

/// Runs the script of `looks` over the registry on a disk, and returns the answers as text.
pub(crate) fn seen(alloc: Global, disk: Memory) -> Result<Vec<u8>, AllocError> {
    let lines = looks(alloc)?;
    let mut binders = Binders::new(alloc, opened(alloc, disk)?);
    let mut text = Vec::new(alloc);
    let ran = run_script_on_disk(alloc, &mut lines.as_slice(), &mut text, &mut binders);
    let _ = binders.into_registry().into_disk();
    match ran {
        Ok(_) => Ok(text),
        Err(_) => Err(AllocError),
    }
}

/// Returns words about whether the registry on a disk lists and binds in the same way as the
/// registry before command number `at`.
pub(crate) fn is_as_before(
    alloc: Global,
    disk: Memory,
    at: usize,
) -> Result<&'static str, AllocError> {
    if seen(alloc, disk)? == seen(alloc, before(alloc, at)?)? {
        Ok("list and bind as before,")
    } else {
        Ok("LIST OR BIND OTHERWISE,")
    }
}
