// Runs the call of a case, and compares the answer with the expected one.

use crate::answer::is_wanted;
use crate::bind::{Told, put_bind, put_word};
use crate::disk::leaves_so;
use crate::file::changed_file;
use crate::library::{Seen, put_file, put_find, put_hash};
use crate::number::last_number;
use crate::script::runs_so;
use crate::words::{Program, ends_so};
use anyhow::{Context, Result, bail};
use commands::run_image;
use image::bind_alone;
use std::alloc::Global;
use std::io::Write;

/// Answers `image FILE BASE`: appends to `text` the text of the image of a file, or the line of its
/// refusal.
fn put_image(rt: &HostRuntime, text: &mut Vec<u8>, words: &str) -> Result<()> {
    let (file, base) = last_number(words)?;
    run_image(rt.alloc(), &changed_file(rt, file)?, base, text)?;
    Ok(())
}

/// Returns the byte at `address` in the image of a file, or `None` if the image has no byte at this
/// address.
fn byte_of(alloc: Global, bytes: &[u8], base: u64, address: u64) -> Result<Option<u8>> {
    match bind_alone(alloc, bytes, base) {
        Ok(image) => Ok(image.byte(address)),
        Err(_) => bail!("no image"),
    }
}

/// Appends to `text` a byte in two hexadecimal digits, or `none`.
fn put_digits(text: &mut Vec<u8>, byte: Option<u8>) -> Result<()> {
    match byte {
        Some(byte) => writeln!(text, "{byte:02x}")?,
        None => text.extend_from_slice(b"none\n")?,
    }
    Ok(())
}

/// Answers `byte FILE BASE ADDRESS`: appends to `text` the byte at an address of the image of a
/// file, in two hexadecimal digits, or `none`.
fn put_byte(rt: &HostRuntime, text: &mut Vec<u8>, words: &str) -> Result<()> {
    let (place, address) = last_number(words)?;
    let (file, base) = last_number(place)?;
    let byte = byte_of(rt.alloc(), &changed_file(rt, file)?, base, address)?;
    put_digits(text, byte)
}

/// Appends to `text` the answer to a call. The call is a name followed by words.
fn put_answer(rt: &HostRuntime, text: &mut Vec<u8>, call: &str) -> Result<()> {
    let (name, words) = call.split_once(' ').context("a call without words")?;
    match name {
        "image" => put_image(rt, text, words),
        "byte" => put_byte(rt, text, words),
        "bind" => put_bind(rt, text, words, Told::Text),
        "order" => put_bind(rt, text, words, Told::Order),
        "word" => put_word(rt, text, words),
        "admit" => put_file(rt, text, words, Seen::Admission),
        "library" => put_file(rt, text, words, Seen::Name),
        "view" => put_file(rt, text, words, Seen::View),
        "find" => put_find(rt, text, words),
        "hash" => put_hash(rt.alloc(), text, words),
        _ => bail!("the call {call}"),
    }
}

/// Returns whether a call has the answer `wanted`.
fn gives(rt: &HostRuntime, call: &str, wanted: &str) -> Result<bool> {
    if let Some(words) = call.strip_prefix("script ") {
        return runs_so(rt, words, wanted);
    }
    if let Some(words) = call.strip_prefix("on ") {
        return leaves_so(rt, words, wanted);
    }
    if let Some(words) = call.strip_prefix("words") {
        return ends_so(rt, Program::Registry, words, &[], wanted);
    }
    let mut text = Vec::new(rt.alloc());
    put_answer(rt, &mut text, call)?;
    is_wanted(rt, &text, wanted)
}

/// Returns whether a case is right. `CALL => ANSWER` means that the call has to have this answer,
/// and `CALL =/> ANSWER` that it has to have another one.
pub(crate) fn stands(rt: &HostRuntime, case: &str) -> Result<bool> {
    if let Some((call, wanted)) = case.split_once(" => ") {
        return gives(rt, call, wanted);
    }
    let (call, other) = case.split_once(" =/> ").context("a case without =>")?;
    Ok(!gives(rt, call, other)?)
}
