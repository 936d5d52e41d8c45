// Makes the file of a case, and the changes to the file. The bytes of the file are those of a file
// of the folder, or are written in digits, or are described by a text.

use crate::number::parse_number;
use anyhow::{Context, Result, bail};
use std::alloc::Global;
use std::fs;

/// Returns the bytes that the hexadecimal digits `digits` encode.
pub(crate) fn spelt(alloc: Global, digits: &str) -> Result<Vec<u8>> {
    Ok(hex::decode(alloc, digits)?)
}

/// Returns the bytes of the file `name` of the folder.
fn file_bytes(rt: &HostRuntime, name: &str) -> Result<Vec<u8>> {
    fs::read(rt, name).context(format_args!("the file {name}"))
}

/// Returns the text of the file `name` of the folder. If it can't be read, the error has the file's
/// name, and `what`, the purpose of the file.
pub(crate) fn text_of_file(rt: &HostRuntime, what: &str, name: &str) -> Result<String> {
    fs::read_to_string(rt, name).context(format_args!("{what} {name}"))
}

/// Writes `new` over the bytes of a file at offset `at`.
fn put(bytes: &mut [u8], at: usize, new: &[u8]) -> Result<()> {
    for (i, byte) in new.iter().enumerate() {
        match bytes.get_mut(at.saturating_add(i)) {
            Some(place) => *place = *byte,
            None => bail!("past the end"),
        }
    }
    Ok(())
}

/// Returns the bytes that the digits of `value` encode. If `value` begins with `@`, returns the
/// bytes of the folder's file whose name follows.
fn new_bytes(rt: &HostRuntime, value: &str) -> Result<Vec<u8>> {
    match value.strip_prefix('@') {
        Some(name) => file_bytes(rt, name),
        None => spelt(rt.alloc(), value),
    }
}

/// Makes one change to a file: `cut=LENGTH`, `pad=LENGTH` with zeros, `OFFSET=BYTES` or
/// `OFFSET=@NAME`.
fn change(rt: &HostRuntime, bytes: &mut Vec<u8>, what: &str, value: &str) -> Result<()> {
    match what {
        "cut" => bytes.truncate(parse_number(value)? as usize),
        "pad" => bytes.resize(parse_number(value)? as usize, 0)?,
        _ => put(bytes, parse_number(what)? as usize, &new_bytes(rt, value)?)?,
    }
    Ok(())
}

/// Returns the bytes of the file `name` of the folder. If `name` is `bytes=BYTES`, returns the
/// bytes that BYTES encodes.
fn plain_bytes(rt: &HostRuntime, name: &str) -> Result<Vec<u8>> {
    match name.strip_prefix("bytes=") {
        Some(digits) => spelt(rt.alloc(), digits),
        None => file_bytes(rt, name),
    }
}

/// Makes the changes that words describe, from left to right.
fn with_changes(rt: &HostRuntime, bytes: Vec<u8>, changes: &str) -> Result<Vec<u8>> {
    let mut bytes = bytes;
    for word in changes.split_whitespace() {
        match word.split_once('=') {
            Some((what, value)) => change(rt, &mut bytes, what, value)?,
            None => bail!("the change {word}"),
        }
    }
    Ok(bytes)
}

/// Returns the bytes that a text describes. Its first line has the name or the bytes of a file,
/// followed by changes. All other lines have changes.
fn made_bytes(rt: &HostRuntime, name: &str) -> Result<Vec<u8>> {
    let text = text_of_file(rt, "the text", name)?;
    let (first, changes) = text.split_once(' ').context("a text without changes")?;
    with_changes(rt, plain_bytes(rt, first)?, changes)
}

/// Returns the bytes of a file before its changes. For `made=NAME`, these are the bytes that the
/// text NAME describes. Otherwise the bytes are those of a file of the folder, or are written in
/// digits.
fn first_bytes(rt: &HostRuntime, name: &str) -> Result<Vec<u8>> {
    match name.strip_prefix("made=") {
        Some(text) => made_bytes(rt, text),
        None => plain_bytes(rt, name),
    }
}

/// Returns the bytes of a file after its changes. `words` has the file, followed by the changes.
pub(crate) fn changed_file(rt: &HostRuntime, words: &str) -> Result<Vec<u8>> {
    let (name, changes) = words.split_once(' ').unwrap_or((words, ""));
    with_changes(rt, first_bytes(rt, name)?, changes)
}
