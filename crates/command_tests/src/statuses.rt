// Tests of the status of a command line whose output accepts fewer bytes than are written, or whose
// input returns fewer bytes than are requested.

use crate::runs::{ends, words_of};
use crate::streams::{Full, Turn, Turns};
use commands::run_arguments;
use samples::library;
use std::io::ErrorKind;
use std::test::Fail;
use std::{fs, io};

/// Returns the words of a command line. If `words` is empty, returns the error of refused memory.
fn words_or(rt: &HostRuntime, words: &[&str]) -> io::Result<Vec<String>> {
    if words.is_empty() {
        return Err(io::Error::from(ErrorKind::OutOfMemory));
    }
    words_of(rt, words)
}

/// Runs a command line whose output and standard error have room for `rooms` bytes. Returns the
/// status, the room that is left in the output, the number of calls of standard error, and the room
/// that is left in standard error.
fn told(rt: &HostRuntime, words: &[&str], rooms: (usize, usize)) -> (u8, usize, u64, usize) {
    let words = words_or(rt, words);
    let mut input = b"list\n".as_slice();
    let mut output = Full::with_room(rooms.0);
    let mut errors = Full::with_room(rooms.1);
    let status = run_arguments(rt, rt.alloc(), words, &mut input, &mut output, &mut errors);
    (status, output.room, errors.calls, errors.room)
}

/// Three command lines: with a file that doesn't exist, with no command, and with a bad base.
const UNREAD: &[&str] = &["image", "no such file", "0x0"];

const NO_COMMAND: &[&str] = &["help"];

const BAD_BASE: &[&str] = &["image", "no such file", "10"];

/// Each row has a command line, the rooms of the output and of standard error, and the expected
/// result of `told`.
static MESSAGES: [(&[&str], (usize, usize), (u8, usize, u64, usize)); 9] = [
    (UNREAD, (100, 100), (3, 100, 1, 66)),
    (UNREAD, (0, 100), (3, 0, 1, 66)),
    (UNREAD, (100, 0), (3, 100, 1, 0)),
    (NO_COMMAND, (100, 100), (2, 100, 1, 74)),
    (NO_COMMAND, (100, 0), (2, 100, 1, 0)),
    (BAD_BASE, (100, 100), (2, 100, 1, 82)),
    (BAD_BASE, (100, 0), (2, 100, 1, 0)),
    // Memory was refused for the words. This is reported on the output.
    (&[], (24, 100), (4, 0, 0, 100)),
    (&[], (23, 100), (3, 23, 0, 100)),
];

#[test]
fn a_message_is_one_write_that_changes_no_status(rt: HostRuntime) {
    for &(words, rooms, wanted) in &MESSAGES {
        assert!(rt; told(&rt, words, rooms) == wanted);
    }
}

/// Returns whether the status of these words is 3 if the output has room for fewer than `length`
/// bytes, and `status` if it has room for `length` bytes or one more. `length` is the length of the
/// text. Nothing may be written to standard error.
fn needs_room(rt: &HostRuntime, words: &[&str], length: usize, status: u8) -> bool {
    let mut holds = true;
    for room in 0..length.saturating_add(2) {
        let wanted = if room < length { 3 } else { status };
        let (found, _, calls, _) = told(rt, words, (room, 100));
        holds &= (found, calls) == (wanted, 0);
    }
    holds
}

/// Command lines with the lengths of their texts and their statuses: an image, a refusal of an
/// image, an empty listing, a refusal of a command, and a script with one listing.
static TEXTS: [(&[&str], usize, u8); 5] = [
    (&["image", "small.so", "0x0"], 784, 0),
    (&["image", "small.so", "0x1"], 19, 1),
    (&["list", "empty.disk"], 4, 0),
    (&["remove", "empty.disk", "a"], 24, 1),
    (&["script", "empty.disk"], 4, 0),
];

/// Formats a disk of eight sectors. Returns whether that succeeds.
fn formats(rt: &HostRuntime, disk: &str) -> bool {
    ends(rt, words_of(rt, &["format", disk, "8"]), (0, "ok\n", ""))
}

#[test]
fn output_that_fails_is_status_3(rt: HostRuntime) -> Result<(), Fail> {
    fs::write(&rt, "small.so", &library(b'a', 0))?;
    assert!(rt; formats(&rt, "empty.disk"));
    for &(words, length, status) in &TEXTS {
        assert!(rt; needs_room(&rt, words, length, status));
    }
    fs::remove_file(&rt, "small.so")?;
    fs::remove_file(&rt, "empty.disk")?;
    Ok(())
}

/// Returns the status of a script over a disk, if the script's input has these turns.
fn script_status(rt: &HostRuntime, disk: &str, turns: &[Turn]) -> u8 {
    let words = words_of(rt, &["script", disk]);
    let mut input = Turns(turns);
    let mut output = Vec::new(rt.alloc());
    let mut errors = Vec::new(rt.alloc());
    run_arguments(rt, rt.alloc(), words, &mut input, &mut output, &mut errors)
}

/// Each row has the turns of a script's input, and the expected status.
static INPUTS: [(&[Turn], u8); 4] = [
    (&[], 0),
    // The last line has no newline.
    (&[Turn::Gives(9)], 1),
    (&[Turn::Fails(ErrorKind::Other)], 3),
    (&[Turn::Fails(ErrorKind::OutOfMemory)], 4),
];

#[test]
fn input_that_fails_is_status_3_or_4(rt: HostRuntime) -> Result<(), Fail> {
    assert!(rt; formats(&rt, "input.disk"));
    for &(turns, status) in &INPUTS {
        assert!(rt; script_status(&rt, "input.disk", turns) == status);
    }
    fs::remove_file(&rt, "input.disk")?;
    Ok(())
}
