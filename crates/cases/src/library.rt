// Answers cases about a file that other objects may use: its admission, its name, and its exports.

use crate::file::{changed_file, spelt};
use crate::view::{put_named, put_view};
use anyhow::{Context, Result, bail};
use hash_check::{Admitted, FileRefusal, ReadRefusal, elf_hash};
use program_parts::write_file_refusal;
use std::alloc::Global;
use std::io::Write;

/// The question of a case about an admitted file.
#[derive(Clone, Copy)]
pub(crate) enum Seen<'a> {
    /// Whether the file is admitted.
    Admission,
    /// The file's name as a library.
    Name,
    /// The file's names and symbols, as calls of the library report them.
    View,
    /// The symbol that is exported under this name, and the number of names that a search compares.
    Export(&'a [u8]),
}

/// Appends to `text` the line of a file's refusal.
fn put_refused(text: &mut Vec<u8>, refusal: FileRefusal) -> Result<()> {
    text.extend_from_slice(b"refused ")?;
    write_file_refusal(text, refusal)?;
    text.extend_from_slice(b"\n")?;
    Ok(())
}

/// Appends to `text` the name of a library. If the file has no name that a library may have,
/// appends the refusal instead.
fn put_library(text: &mut Vec<u8>, object: &Admitted) -> Result<()> {
    match object.library_name() {
        Ok(name) => put_named(text, b"library ", name),
        Err(refusal) => put_refused(text, FileRefusal::Object(refusal)),
    }
}

/// Appends to `text` the symbol that `object` exports under `name`, and the number of names that a
/// search compares.
fn put_export(text: &mut Vec<u8>, object: &Admitted, name: &[u8]) -> Result<()> {
    let found = object.find_hashed(name, elf_hash(name));
    if object.find(name) != found.symbol {
        bail!("two answers");
    }
    let count = found.compared;
    match found.symbol {
        Some(symbol) => writeln!(text, "{symbol} of {count}")?,
        None => writeln!(text, "none of {count}")?,
    }
    Ok(())
}

/// Appends to `text` the answer to the question `seen` about an admitted file.
fn put_seen(text: &mut Vec<u8>, object: &Admitted, seen: Seen<'_>) -> Result<()> {
    match seen {
        Seen::Admission => Ok(text.extend_from_slice(b"admitted\n")?),
        Seen::Name => put_library(text, object),
        Seen::View => put_view(text, object),
        Seen::Export(name) => put_export(text, object, name),
    }
}

/// Appends to `text` the answer to the question about the file in `words`. If the file is refused,
/// appends the line of its refusal.
pub(crate) fn put_file(
    rt: &HostRuntime,
    text: &mut Vec<u8>,
    words: &str,
    seen: Seen<'_>,
) -> Result<()> {
    let bytes = changed_file(rt, words)?;
    match Admitted::read(rt.alloc(), &bytes) {
        Ok(object) => put_seen(text, &object, seen),
        Err(ReadRefusal::File(refusal)) => put_refused(text, refusal),
        Err(ReadRefusal::OutOfMemory) => bail!("out of memory"),
    }
}

/// Returns the bytes of a name. It is written as a word, or as `bytes=BYTES`.
pub(crate) fn name_bytes(alloc: Global, word: &str) -> Result<Vec<u8>> {
    match word.strip_prefix("bytes=") {
        Some(digits) => spelt(alloc, digits),
        None => Ok(Vec::from_slice(alloc, word.as_bytes())?),
    }
}

/// Answers `find FILE NAME`: appends to `text` the symbol that the file exports under a name, and
/// the number of names that a search compares.
pub(crate) fn put_find(rt: &HostRuntime, text: &mut Vec<u8>, words: &str) -> Result<()> {
    let (file, word) = words.rsplit_once(' ').context("a search without a name")?;
    let name = name_bytes(rt.alloc(), word)?;
    put_file(rt, text, file, Seen::Export(&name))
}

/// Answers `hash NAME`: appends to `text` the hash of a name.
pub(crate) fn put_hash(alloc: Global, text: &mut Vec<u8>, word: &str) -> Result<()> {
    let hash = elf_hash(&name_bytes(alloc, word)?);
    writeln!(text, "{hash:#x}")?;
    Ok(())
}
