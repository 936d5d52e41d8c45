// Binds the program of a case with libraries.

use crate::file::changed_file;
use crate::number::{first_number, last_number};
use crate::preload::preloads_of;
use crate::shelf::{LibraryFile, libraries_of, read_libraries};
use anyhow::{Error, Result};
use image::{Image, bind_program};
use plain_registry::{are_preloads, have_distinct_names};
use program_parts::write_refusal;
use scope::Library;
use std::alloc::Global;
use std::io::Write;

/// The part of an image that a case requests.
#[derive(Clone, Copy)]
pub(crate) enum Told {
    /// The whole text of the image.
    Text,
    /// The bases and the names of the image's objects, in one line.
    Order,
    /// The number in the eight bytes at an address, or `none`.
    Word(u64),
}

/// Appends to `text`, in one line, the rest of each line of `whole` that begins with `object`.
/// `whole` is the text of an image.
fn put_objects(text: &mut Vec<u8>, whole: &[u8]) -> Result<()> {
    text.extend_from_slice(b"objects")?;
    for line in whole.split(|byte| *byte == b'\n') {
        if let Some(object) = line.strip_prefix(b"object") {
            text.extend_from_slice(object)?;
        }
    }
    text.extend_from_slice(b"\n")?;
    Ok(())
}

/// Returns the number in the eight bytes at `address`, if the image has all eight.
fn word_at(image: &Image, address: u64) -> Option<u64> {
    let mut word = [0; 8];
    for (i, byte) in word.iter_mut().enumerate() {
        *byte = image.byte(address.wrapping_add(i as u64))?;
    }
    Some(u64::from_le_bytes(word))
}

/// Appends to `text` the bases and the names of an image's objects, in one line.
fn put_order(alloc: Global, text: &mut Vec<u8>, image: &Image) -> Result<()> {
    let mut whole = Vec::new(alloc);
    image.write_text(&mut whole)?;
    put_objects(text, &whole)
}

/// Appends to `text` a number, or `none`.
fn put_number(text: &mut Vec<u8>, word: Option<u64>) -> Result<()> {
    match word {
        Some(word) => writeln!(text, "{word:#x}")?,
        None => text.extend_from_slice(b"none\n")?,
    }
    Ok(())
}

/// Appends to `text` the part of an image that a case requests.
fn put_image(alloc: Global, text: &mut Vec<u8>, image: &Image, told: Told) -> Result<()> {
    match told {
        Told::Text => Ok(image.write_text(text)?),
        Told::Order => put_order(alloc, text, image),
        Told::Word(address) => put_number(text, word_at(image, address)),
    }
}

/// Binds a program with libraries, and appends to `text` the part of its image that the case
/// requests, or the refusal.
fn put_bound(
    alloc: Global,
    text: &mut Vec<u8>,
    program: (&[u8], u64),
    libraries: &[Library<'_>],
    preloads: &[usize],
    told: Told,
) -> Result<()> {
    if !have_distinct_names(libraries) {
        return Err(Error::msg("two libraries of one name"));
    }
    if !are_preloads(preloads, libraries.len()) {
        return Err(Error::msg("a preload twice"));
    }
    let (bytes, base) = program;
    match bind_program(alloc, bytes, base, libraries, preloads) {
        Ok(image) => put_image(alloc, text, &image, told),
        Err(refusal) => Ok(write_refusal(text, &refusal)?),
    }
}

/// Binds a program with the libraries in `files`. `names` has the names of the preloads among them.
fn put_with_files(
    alloc: Global,
    text: &mut Vec<u8>,
    program: (&[u8], u64),
    files: &[LibraryFile],
    names: &str,
    told: Told,
) -> Result<()> {
    let libraries = libraries_of(alloc, files)?;
    let preloads = preloads_of(alloc, &libraries, names)?;
    put_bound(alloc, text, program, &libraries, &preloads, told)
}

/// Binds the program of `FILE BASE [preload NAME ..] [+ LIBRARY] ..`, and appends to `text` the
/// part of its image that the case requests, or the refusal.
pub(crate) fn put_bind(
    rt: &HostRuntime,
    text: &mut Vec<u8>,
    words: &str,
    told: Told,
) -> Result<()> {
    let (front, rest) = words.split_once(" + ").unwrap_or((words, ""));
    let (program, names) = front.split_once(" preload ").unwrap_or((front, ""));
    let (file, base) = last_number(program)?;
    let bytes = changed_file(rt, file)?;
    let files = read_libraries(rt, rest)?;
    put_with_files(rt.alloc(), text, (&bytes, base), &files, names, told)
}

/// Answers `word ADDRESS FILE BASE ..`: appends to `text` the number in the eight bytes of the
/// image at an address, or `none`, or the refusal.
pub(crate) fn put_word(rt: &HostRuntime, text: &mut Vec<u8>, words: &str) -> Result<()> {
    let (address, words) = first_number(words)?;
    put_bind(rt, text, words, Told::Word(address))
}
