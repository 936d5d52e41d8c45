// A script with every form of line.

use crate::replies::{ends_line, is_not_done, replies, reply_word};
use crate::run::opened;
use crate::seen::{before, seen};
use crate::steps::STEPS;
use crate::words::Words;
use binders::Binders;
use commands::{ScriptFault, run_script_on_disk};
use samples::{library, program};
use sector_disk::Memory;
use std::alloc::{AllocError, Global};

/// Appends to `lines` a line that begins with the text `said` and ends with a file's bytes in
/// hexadecimal.
pub(crate) fn put_line(
    alloc: Global,
    lines: &mut Vec<u8>,
    said: &[u8],
    file: &[u8],
) -> Result<(), AllocError> {
    lines.extend_from_slice(said)?;
    lines.extend_from_slice(hex::encode(alloc, file)?.as_bytes())?;
    lines.extend_from_slice(b"\n")?;
    Ok(())
}

// Returns the script, for the registry that all commands of `STEPS` have made.
fn script_lines(alloc: Global) -> Result<Vec<u8>, AllocError> {
    let (a, c, other_c) = (library(b'a', 2), library(b'c', 0), library(b'c', 1));
    let (needs_a, needs_d) = (program(b'a'), program(b'd'));
    let rows: [(&[u8], &[u8]); 15] = [
        (b"list", b""),
        (b"install ", &c),
        (b"replace ", &a),
        (b"preload a c", b""),
        (b"bind 0x10000 ", &needs_a),
        (b"bind 0x10000 ", &needs_d),
        (b"begin 0x10000 ", &needs_a),
        (b"begin 0x10000 ", &needs_d),
        (b"preload b", b""),
        (b"advance 0", b""),
        (b"cancel 1", b""),
        (b"install ", &other_c),
        (b"remove c", b""),
        (b"lists", b""),
        (b"remove c", b""),
    ];
    let mut lines = Vec::with_capacity(alloc, 16384)?;
    for (said, file) in &rows {
        put_line(alloc, &mut lines, said, file)?;
    }
    lines.extend_from_slice(b"list")?;
    Ok(lines)
}

// The answers to the script's lines, as words.
const ANSWERS: [&str; 16] = [
    "list", "ok", "ok", "ok", "image", "B3", "slot", "slot", "ok", "going", "ok", "C2", "ok", "L1",
    "C3", "L2",
];

// The output of a script, the fault if one ended it, and the disk.
#[derive(Drop)]
struct Ran {
    text: Vec<u8>,
    fault: Option<ScriptFault>,
    disk: Memory,
}

// Runs a script over a disk, with a writer that has enough room.
fn run(alloc: Global, disk: Memory, lines: &[u8]) -> Result<Ran, AllocError> {
    let mut text = Vec::with_capacity(alloc, 32768)?;
    let mut binders = Binders::new(alloc, opened(alloc, disk)?);
    let mut reader = lines;
    let ran = run_script_on_disk(alloc, &mut reader, &mut text, &mut binders);
    Ok(Ran {
        text,
        fault: ran.err(),
        disk: binders.into_registry().into_disk().into_inner(),
    })
}

// Returns the lines that were carried out, and the replies to them. `told` has the replies to all
// lines.
fn done(alloc: Global, lines: &[u8], told: &[Vec<u8>]) -> Result<[Vec<u8>; 2], AllocError> {
    let mut done = [Vec::new(alloc), Vec::new(alloc)];
    for (line, reply) in lines.split_inclusive(ends_line).zip(told) {
        if !is_not_done(reply) {
            done[0].extend_from_slice(line)?;
            done[1].extend_from_slice(reply)?;
        }
    }
    Ok(done)
}

// Returns whether a script of only the lines that were carried out has the same replies, and leaves
// the same state.
fn is_as_without(
    alloc: Global,
    lines: &[u8],
    told: &[Vec<u8>],
    disk: Memory,
) -> Result<bool, AllocError> {
    let start = before(alloc, STEPS.len())?;
    let [done, text] = done(alloc, lines, told)?;
    let without = run(alloc, start, &done)?;
    let same = without.fault.is_none() && without.text == text;
    Ok(same && seen(alloc, without.disk)? == seen(alloc, disk)?)
}

// Returns whether all answers are those of a run in which no growth is refused.
fn is_whole(ran: &Ran, told: &[Vec<u8>]) -> bool {
    let mut same = ran.fault.is_none() && told.len() == ANSWERS.len();
    for (reply, wanted) in told.iter().zip(&ANSWERS) {
        same = same && reply_word(reply) == *wanted;
    }
    same
}

// Returns the words about the end of a script.
fn end_word(fault: Option<ScriptFault>) -> &'static str {
    match fault {
        None => "to the end;",
        Some(ScriptFault::OutOfMemory) => "and a line out of memory;",
        Some(ScriptFault::Read) => "and a reader's fault;",
        Some(ScriptFault::Write) => "and a writer's fault;",
    }
}

// Returns the report about a script with an unexpected answer.
fn otherwise(
    alloc: Global,
    lines: &[u8],
    told: &[Vec<u8>],
    fault: Option<ScriptFault>,
    disk: Memory,
) -> Result<Words, AllocError> {
    let mut words = Words::of("script:");
    for reply in told {
        words.push(reply_word(reply));
    }
    words.push(end_word(fault));
    words.push(if is_as_without(alloc, lines, told, disk)? {
        "all else as without these lines"
    } else {
        "ALL ELSE OTHERWISE"
    });
    Ok(words)
}

/// Runs the script. Returns a report if an answer isn't the expected one.
pub(crate) fn script(alloc: Global, disk: Memory) -> Result<Option<Words>, AllocError> {
    let lines = script_lines(alloc)?;
    let ran = run(alloc, disk, &lines)?;
    let told = replies(alloc, &ran.text)?;
    if is_whole(&ran, &told) {
        return Ok(None);
    }
    Ok(Some(otherwise(alloc, &lines, &told, ran.fault, ran.disk)?))
}
