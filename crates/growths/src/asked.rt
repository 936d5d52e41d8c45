// Defines commands as values, and returns the words for their replies.

use crate::listed::listed;
use image::{BindRefusal, Image};
use registry::Registry;
use requests::{Command, Refusal, Reply};
use samples::{SIZE, library, program};
use sector_disk::{Fuse, Memory};

/// The base of every program.
pub(crate) const BASE: u64 = 0x10000;

/// A registry on a disk whose calls are counted.
pub(crate) type OnMemory = Registry<Fuse<Memory>>;

/// A command. Each name has one byte.
#[derive(Clone, Copy)]
pub(crate) enum Asked {
    /// Installs the library with this name and this version.
    Install(u8, u8),
    /// Replaces the library with this name by this version.
    Replace(u8, u8),
    Remove(&'static [u8]),
    Preload(&'static [&'static [u8]]),
    /// Binds a program that needs the library with this name.
    Bind(u8),
    List,
}

// Returns whether an image has the bytes of `file` at `address`.
fn has_at(image: &Image, address: u64, file: &[u8; SIZE]) -> bool {
    let mut same = true;
    for (at, byte) in file.iter().enumerate() {
        same = same && image.byte(address.wrapping_add(at as u64)) == Some(*byte);
    }
    same
}

// Returns whether an image is that of the program that needs `a`, with version 2 of `a`, and with
// `b` as a preload. Each file is unchanged in the image, one page after the previous file.
fn is_whole(image: &Image) -> bool {
    has_at(image, BASE, &program(b'a'))
        && has_at(image, BASE.wrapping_add(0x1000), &library(b'b', 0))
        && has_at(image, BASE.wrapping_add(0x2000), &library(b'a', 1))
}

// Returns the code of a refusal, such as `S1`.
fn number_of(refusal: &Refusal) -> &'static str {
    match refusal {
        Refusal::Object(_) => "C1",
        Refusal::AlreadyInstalled => "C2",
        Refusal::NotInstalled => "C3",
        Refusal::InPreloads => "C4",
        Refusal::RepeatedPreload => "C5",
        Refusal::Bind(BindRefusal::Missing { .. }) => "B3",
        Refusal::Device => "S1",
        Refusal::Reopen => "S2",
        Refusal::OutOfMemory => "S11",
        _ => "another refusal",
    }
}

/// Returns the word for a reply, such as `ok` or a refusal's code.
pub(crate) fn word(reply: &Reply) -> &'static str {
    match reply {
        Reply::Done => "ok",
        Reply::Listing(listing) => listed(listing),
        Reply::Bound(image) => {
            if is_whole(image) {
                "image"
            } else {
                "another image"
            }
        }
        Reply::Refused(refusal) => number_of(refusal),
    }
}

// Returns the file of a command's library or program, or zeros if the command needs no file.
fn file_of(asked: Asked) -> [u8; SIZE] {
    match asked {
        Asked::Install(name, version) | Asked::Replace(name, version) => library(name, version),
        Asked::Bind(needed) => program(needed),
        _ => [0; SIZE],
    }
}

// Returns the command as a registry accepts it. `file` is the file of the command.
fn command_of(asked: Asked, file: &[u8]) -> Command<'_> {
    match asked {
        Asked::Install(_, _) => Command::Install(file),
        Asked::Replace(_, _) => Command::Replace(file),
        Asked::Remove(name) => Command::Remove(name),
        Asked::Preload(names) => Command::SetPreloads(names),
        Asked::Bind(_) => Command::Bind {
            program: file,
            base: BASE,
        },
        Asked::List => Command::List,
    }
}

/// Applies a command to a registry, and returns its reply.
pub(crate) fn give(registry: &mut OnMemory, asked: Asked) -> Reply {
    registry.apply(&command_of(asked, &file_of(asked)))
}

/// Applies a command to a registry, and returns the word for its reply.
pub(crate) fn ask(registry: &mut OnMemory, asked: Asked) -> &'static str {
    word(&give(registry, asked))
}
