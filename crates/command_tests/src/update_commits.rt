// Tests the status and the output of updates on a disk whose calls fail during the commit.

use crate::update_streams::one;
use samples::library;
use sector_disk::Fuse;
use std::alloc::{AllocError, Global};
use updates::run_update;

// The number of calls that open the disk: a sync, and reads of two roots, the catalogue and the
// entry.
const OPENING: u64 = 5;

// An update of a registry of one library.
#[derive(Drop)]
struct Lines {
    text: String,
    // The number of calls that the update's lines make, and the number of calls that its commit
    // makes.
    planning: u64,
    commit: u64,
}

// Returns the updates. A commit writes the catalogue, unless only preloads change or no library is
// left. It makes a sync, unless only preloads change; then it writes the root, and makes a sync. A
// line that installs writes the file and its entry.
fn updates(alloc: Global) -> Result<[Lines; 3], AllocError> {
    let file = hex::encode(alloc, library(b'b', 0).as_slice())?;
    let lines = |text, planning, commit| Lines {
        text,
        planning,
        commit,
    };
    Ok([
        lines(format!(in alloc; "install {file}\ncommit\n")?, 2, 4),
        lines(format!(in alloc; "remove a\ncommit\n")?, 0, 3),
        lines(format!(in alloc; "preload a\ncommit\n")?, 0, 2),
    ])
}

// The call of a commit that fails, counted from 1; whether all later calls fail; and whether the
// call reaches the disk before it fails.
type Failure = (u64, bool, bool);

// Returns whether an update whose commit fails in this way ends with this status and this output,
// and writes nothing to standard error.
fn ends(alloc: Global, lines: &Lines, failure: Failure, wanted: (u8, &[u8])) -> Option<bool> {
    let (call, forever, late) = failure;
    let call = OPENING.saturating_add(lines.planning).saturating_add(call);
    let disk = Fuse::new(one(alloc)?, call, forever, late);
    let mut input = lines.text.as_bytes();
    let mut output = Vec::new(alloc);
    let mut errors = Vec::new(alloc);
    let (status, disk) = run_update(alloc, disk, &mut input, &mut output, &mut errors);
    drop(disk);
    Some(status.number() == wanted.0 && output.as_slice() == wanted.1 && errors.is_empty())
}

#[test]
fn no_ok_is_written_if_a_call_of_the_commit_fails(rt: HostRuntime) -> Result<(), AllocError> {
    let refused = (3, b"planned\nrefused S1 Device\n".as_slice());
    let done = (0, b"planned\nok\n".as_slice());
    for lines in &updates(rt.alloc())? {
        for call in 1..=lines.commit {
            for (forever, late) in [(false, false), (false, true), (true, false), (true, true)] {
                let failure = (call, forever, late);
                assert!(rt; ends(rt.alloc(), lines, failure, refused) == Some(true));
            }
        }
        // The failing call would be the one after the last call of the commit.
        let failure = (lines.commit.saturating_add(1), true, false);
        assert!(rt; ends(rt.alloc(), lines, failure, done) == Some(true));
    }
    Ok(())
}
