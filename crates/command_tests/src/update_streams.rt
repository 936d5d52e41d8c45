// Tests updates over streams that fail: their status, their output, and the disk afterwards.

use crate::streams::Turn::{Fails, Says};
use crate::streams::{Full, Turn, Turns};
use registry::Registry;
use requests::{Command, Reply};
use samples::library;
use sector_disk::Memory;
use std::alloc::Global;
use std::io::ErrorKind;
use updates::run_update;

/// Makes a disk whose registry has the library `a`.
pub(crate) fn one(alloc: Global) -> Option<Memory> {
    let Ok(mut registry) = Registry::format(alloc, Memory::new(alloc, 16).ok()?) else {
        return None;
    };
    let made = registry.apply(&Command::Install(&library(b'a', 0)));
    let disk = registry.into_disk();
    matches!(made, Reply::Done).then_some(disk)
}

/// Returns the number of libraries of the registry on a disk.
pub(crate) fn held(alloc: Global, disk: Memory) -> Option<usize> {
    let Ok(mut registry) = Registry::open(alloc, disk) else {
        return None;
    };
    let listed = registry.apply(&Command::List);
    let _ = registry.into_disk();
    match listed {
        Reply::Listing(listing) => Some(listing.libraries.len()),
        _ => None,
    }
}

const CANNOT_READ: &str = "rlibreg-tool: cannot read\n";

const NO_MEMORY: &str = "rlibreg-tool: refused S11 OutOfMemory\n";

const CANNOT_WRITE: &[u8] = b"rlibreg-tool: cannot write\n";

// The expected status of an update, its output, its text on standard error, and the number of
// libraries after the update.
type Wanted = (u8, &'static str, &'static str, usize);

// The lines that a reader returns before it fails or ends, and the results.
static CUT: [(&[Turn], Wanted); 6] = [
    (&[Fails(ErrorKind::Other)], (3, "", CANNOT_READ, 1)),
    (
        &[Says("remove a\n"), Fails(ErrorKind::Other)],
        (3, "planned\n", CANNOT_READ, 1),
    ),
    (
        &[Says("remove a\ncom"), Says("mit"), Fails(ErrorKind::Other)],
        (3, "planned\n", CANNOT_READ, 1),
    ),
    (
        &[Says("remove a\n"), Fails(ErrorKind::OutOfMemory)],
        (4, "planned\n", NO_MEMORY, 1),
    ),
    // The input ends without a newline.
    (
        &[Says("remove a\ncommit")],
        (1, "planned\nrefused L2 CutLine\n", "", 1),
    ),
    // The reader fails after the commit, but isn't called after the commit.
    (
        &[Says("remove a\ncommit\n"), Fails(ErrorKind::Other)],
        (0, "planned\nok\n", "", 0),
    ),
];

// Returns whether an update whose reader has these turns ends as expected.
fn ends(alloc: Global, turns: &[Turn], wanted: Wanted) -> Option<bool> {
    let mut output = Vec::new(alloc);
    let mut errors = Vec::new(alloc);
    let disk = one(alloc)?;
    let mut input = Turns(turns);
    let (status, disk) = run_update(alloc, disk, &mut input, &mut output, &mut errors);
    let told = output.as_slice() == wanted.1.as_bytes() && errors.as_slice() == wanted.2.as_bytes();
    Some(status.number() == wanted.0 && told && held(alloc, disk)? == wanted.3)
}

#[test]
fn a_reader_fails_in_an_update(rt: HostRuntime) {
    for &(turns, wanted) in &CUT {
        assert!(rt; ends(rt.alloc(), turns, wanted) == Some(true));
    }
}

// Runs an update whose output has room for `room` bytes. Returns the status, whether the failure is
// reported, and the number of libraries after it.
fn full(alloc: Global, room: usize) -> Option<(u8, bool, usize)> {
    let mut output = Full::with_room(room);
    let mut errors = Vec::new(alloc);
    let mut input = b"list\nremove a\nlist\ncommit\n".as_slice();
    let (status, disk) = run_update(alloc, one(alloc)?, &mut input, &mut output, &mut errors);
    let said = errors.as_slice() == CANNOT_WRITE;
    Some((status.number(), said, held(alloc, disk)?))
}

#[test]
fn a_writer_fails_before_a_commit_and_behind_it(rt: HostRuntime) {
    // The answers before the last one have 30 bytes, and are sent before the commit.
    for (room, wanted) in [
        (0, (3, true, 1)),
        (29, (3, true, 1)),
        (30, (3, true, 0)),
        (32, (3, true, 0)),
        (33, (0, false, 0)),
    ] {
        assert!(rt; full(rt.alloc(), room) == Some(wanted));
    }
}
