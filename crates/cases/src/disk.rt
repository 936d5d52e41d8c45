// Runs a command line over a disk, and compares the output, the status and the disk afterwards with
// the expected ones.

use crate::file::changed_file;
use crate::words::{Program, ends_so};
use anyhow::{Context, Result};
use std::fs;

/// The name of the file that is the disk.
const DISK: &str = "disk";

/// Returns the disk that `words` describe: no disk for `none`, and otherwise a file with its
/// changes.
fn disk_of(rt: &HostRuntime, words: &str) -> Result<Option<Vec<u8>>> {
    if words == "none" {
        return Ok(None);
    }
    Ok(Some(changed_file(rt, words)?))
}

/// Removes the disk, and returns its bytes, if there is one.
fn take_disk(rt: &HostRuntime) -> Result<Option<Vec<u8>>> {
    if !fs::exists(rt, DISK)? {
        return Ok(None);
    }
    let bytes = fs::read(rt, DISK)?;
    fs::remove_file(rt, DISK)?;
    Ok(Some(bytes))
}

/// Replaces the disk with the one that `words` describe.
fn put_disk(rt: &HostRuntime, words: &str) -> Result<()> {
    take_disk(rt)?;
    if let Some(bytes) = disk_of(rt, words)? {
        fs::write(rt, DISK, bytes.as_slice())?;
    }
    Ok(())
}

/// Returns whether the command line `WORD .. [< INPUT]` ends with the status and the output that
/// `wanted` describes. Without INPUT the input is empty.
fn runs_to(rt: &HostRuntime, program: Program, words: &str, wanted: &str) -> Result<bool> {
    match words.split_once(" < ") {
        Some((words, file)) => ends_so(rt, program, words, &changed_file(rt, file)?, wanted),
        None => ends_so(rt, program, words, &[], wanted),
    }
}

/// Splits words at `run` or `tool`. Returns the words before it, the program that this word names,
/// and the words of the program.
fn split_words(words: &str) -> Option<(&str, Program, &str)> {
    if let Some((before, words)) = words.split_once(" run") {
        return Some((before, Program::Registry, words));
    }
    let (before, words) = words.split_once(" tool")?;
    Some((before, Program::Tool, words))
}

/// Returns the disk that has to be left. The word `same` means the disk before the command, with
/// the changes that follow the word.
fn wanted_disk(rt: &HostRuntime, before: &str, after: &str) -> Result<Option<Vec<u8>>> {
    match after.strip_prefix("same") {
        Some(changes) => disk_of(rt, &format!(in rt.alloc(); "{before}{changes}")?),
        None => disk_of(rt, after),
    }
}

/// Removes the disk, and returns whether it was the expected one.
fn is_left(rt: &HostRuntime, before: &str, after: &str) -> Result<bool> {
    let left = take_disk(rt)?;
    let wanted = wanted_disk(rt, before, after)?;
    Ok(left == wanted)
}

/// Returns whether a command line ends as `wanted` says, and leaves the disk that `wanted`
/// describes. `words` is `BEFORE run WORD .. [< INPUT]`; with `tool` in place of `run`, the command
/// line is one of `rlibreg-tool`. `wanted` is `STATUS ANSWER then AFTER`. The file `disk` is the
/// disk.
pub(crate) fn leaves_so(rt: &HostRuntime, words: &str, wanted: &str) -> Result<bool> {
    let (before, program, words) = split_words(words).context("a disk without words")?;
    let (ending, after) = wanted.rsplit_once(" then ").context("no disk after it")?;
    put_disk(rt, before)?;
    let ends = runs_to(rt, program, words, ending)?;
    let left = is_left(rt, before, after)?;
    Ok(ends && left)
}
