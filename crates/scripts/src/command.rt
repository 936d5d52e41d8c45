// The command that a line requests.

ghost use Rattle.std.specs.Prelude.{◌≡◌, IfOk, MatchOption, length, drop, false, true};
ghost use Rattle.std.specs.Option.{option_map};
ghost use Rattle.requests.specs.Request.{request_of};
ghost use Rattle.scripts.specs.Asked.{request_asked, request_meaning};
ghost use Rattle.scripts.specs.Words.{has_front, program_behind};

use crate::hexadecimal::hex_bytes;
use crate::word::{base_in, named, names_behind, word_in_front};
use requests::Command;
use std::alloc::{AllocError, Global};

/// The command that a line requests. It owns the bytes that HEX encodes, and the list of NAMEs.
#[derive(Drop)]
pub enum AskedCommand<'a> {
    /// Installs the library with these bytes.
    Install(Vec<u8>),
    /// Replaces the library that has the same name as the library with these bytes.
    Replace(Vec<u8>),
    /// Removes the library with this name.
    Remove(&'a [u8]),
    /// Makes the libraries with these names the preloads, in this order.
    SetPreloads(Vec<&'a [u8]>),
    /// Binds a program with the libraries and the preloads.
    Bind {
        /// The bytes of the program's file.
        program: Vec<u8>,
        /// The address at which the program is bound.
        base: u64,
    },
    /// Lists the libraries and the preloads.
    List,
}

impl<'a> AskedCommand<'a> {
    /// Returns this command as a command for a registry.
    pub fn as_command(&self) -> Command<'_>
        ensures { request_of result ≡ request_asked self.now }
    {
        match self {
            AskedCommand::Install(bytes) => Command::Install(bytes),
            AskedCommand::Replace(bytes) => Command::Replace(bytes),
            AskedCommand::Remove(name) => Command::Remove(name),
            AskedCommand::SetPreloads(names) => Command::SetPreloads(names),
            AskedCommand::Bind { program, base } => Command::Bind {
                program,
                base: *base,
            },
            AskedCommand::List => Command::List,
        }
    }
}

/// Returns the bytes after `front` in a line, or `None` if the line doesn't begin with `front`.
pub fn behind<'a>(line: &'a [u8], front: &[u8]) -> Option<&'a [u8]>
    ensures { MatchOption result (has_front front.now line.now ≡ false)
        (λ rest. (has_front front.now line.now ≡ true)
        × (rest.now ≡ drop (length front.now) line.now)) }
{
    line.strip_prefix(front)
}

/// Reads BASE and HEX, with a space between them. Returns the bytes of a program and its base, or
/// `None` if `rest` has another form.
pub fn program_behind(alloc: Global, rest: &[u8]) -> Result<Option<(Vec<u8>, u64)>, AllocError>
    ensures { IfOk result (λ both. option_map (λ p. (p.0.items, p.1)) both
        ≡ program_behind rest.now) }
{
    let word = word_in_front(rest);
    let Some(base) = base_in(word) else {
        return Ok(None);
    };
    if word.len() == rest.len() {
        return Ok(None);
    }
    match hex_bytes(alloc, &rest[word.len() + 1..])? {
        Some(program) => Ok(Some((program, base))),
        None => Ok(None),
    }
}

/// Returns the command that a line requests, or `None` if the line has none of the forms. Fails
/// only if memory is refused.
pub fn parse_command(alloc: Global, line: &[u8]) -> Result<Option<AskedCommand<'_>>, AllocError>
    ensures { IfOk result
        (λ asked. option_map request_asked asked ≡ request_meaning line.now) }
{
    if let Some(rest) = behind(line, b"install ") {
        return match hex_bytes(alloc, rest)? {
            Some(bytes) => Ok(Some(AskedCommand::Install(bytes))),
            None => Ok(None),
        };
    }
    if let Some(rest) = behind(line, b"replace ") {
        return match hex_bytes(alloc, rest)? {
            Some(bytes) => Ok(Some(AskedCommand::Replace(bytes))),
            None => Ok(None),
        };
    }
    if let Some(rest) = behind(line, b"remove ") {
        return match named(rest) {
            Some(name) => Ok(Some(AskedCommand::Remove(name))),
            None => Ok(None),
        };
    }
    if let Some(rest) = behind(line, b"preload") {
        return match names_behind(alloc, rest)? {
            Some(names) => Ok(Some(AskedCommand::SetPreloads(names))),
            None => Ok(None),
        };
    }
    if let Some(rest) = behind(line, b"bind ") {
        return match program_behind(alloc, rest)? {
            Some((program, base)) => Ok(Some(AskedCommand::Bind { program, base })),
            None => Ok(None),
        };
    }
    if line == b"list".as_slice() {
        return Ok(Some(AskedCommand::List));
    }
    Ok(None)
}
