// Reads the changes of an update as commands for a registry.
ghost use Rattle.std.specs.Prelude.{◌≡◌, List, IfOk, MatchOption, map};
ghost use Rattle.requests.specs.Request.{Request, request_of};
ghost use Rattle.c_answers.specs.Changes.{Asks, Mean, Means, request_asked};

use crate::change_place::{ChangePlace, own_bytes};
use crate::preload::names_in;
use requests::Command;
use std::alloc::{AllocError, Global};

/// The command of a change. The list of names is in allocated memory.
#[derive(Drop)]
pub(crate) enum AskedChange<'a> {
    /// Installs the library whose file has these bytes.
    Install(&'a [u8]),
    /// Replaces the library that has the same name as the file with these bytes.
    Replace(&'a [u8]),
    /// Removes the library with this name.
    Remove(&'a [u8]),
    /// Makes the libraries with these names the preloads, in this order.
    SetPreloads(Vec<&'a [u8]>),
}

impl<'a> AskedChange<'a> {
    /// Returns this change as a command for a registry.
    fn as_command(&self) -> Command<'_>
        ensures { request_of result ≡ request_asked self.now }
    {
        match self {
            AskedChange::Install(bytes) => Command::Install(bytes),
            AskedChange::Replace(bytes) => Command::Replace(bytes),
            AskedChange::Remove(name) => Command::Remove(name),
            AskedChange::SetPreloads(names) => Command::SetPreloads(names),
        }
    }
}

/// Returns the command of a change of kind `kind` with the bytes `own`, or `None` if there is no
/// such kind, or the bytes don't have the form for it.
fn asked_of(alloc: Global, kind: u64, own: &[u8]) -> Result<Option<AskedChange<'_>>, AllocError>
    ensures { IfOk result (λ read. MatchOption read
        ((request : Request) → Asks kind own.now request → ⊥)
        (λ asked. Asks kind own.now (request_asked asked))) }
{
    match kind {
        1 => Ok(Some(AskedChange::Install(own))),
        2 => Ok(Some(AskedChange::Replace(own))),
        3 => Ok(Some(AskedChange::Remove(own))),
        4 => match names_in(alloc, own)? {
            Some(names) => Ok(Some(AskedChange::SetPreloads(names))),
            None => Ok(None),
        },
        _ => Ok(None),
    }
}

/// Returns the command of `change`, whose bytes are in `bytes`, or `None` if the change isn't
/// valid.
fn asked_change<'a>(
    alloc: Global,
    change: &ChangePlace,
    bytes: &'a [u8],
) -> Result<Option<AskedChange<'a>>, AllocError>
    ensures { IfOk result (λ read. MatchOption read
        ((request : Request) → Means bytes.now change.now request → ⊥)
        (λ asked. Means bytes.now change.now (request_asked asked))) }
{
    match own_bytes(change, bytes) {
        Some(own) => asked_of(alloc, change.kind, own),
        None => Ok(None),
    }
}

/// Returns the commands of `changes`, whose bytes are in `bytes`, or `None` if a change isn't
/// valid.
pub(crate) fn asked_changes<'a>(
    alloc: Global,
    changes: &[ChangePlace],
    bytes: &'a [u8],
) -> Result<Option<Vec<AskedChange<'a>>>, AllocError>
    ensures { IfOk result (λ read. MatchOption read
        ((requests : List Request) → Mean bytes.now changes.now requests → ⊥)
        (λ asked. Mean bytes.now changes.now (map request_asked asked.items))) }
{
    let mut all = Vec::with_capacity(alloc, changes.len())?;
    for change in changes {
        match asked_change(alloc, change, bytes)? {
            Some(asked) => all.push_reserved(asked),
            None => return Ok(None),
        }
    }
    Ok(Some(all))
}

/// Returns the changes `asked` as commands for a registry.
pub(crate) fn commands_of<'a>(
    alloc: Global,
    asked: &'a [AskedChange<'_>],
) -> Result<Vec<Command<'a>>, AllocError>
    ensures { IfOk result (λ commands. map request_of commands.items
        ≡ map request_asked asked.now) }
{
    let mut commands = Vec::with_capacity(alloc, asked.len())?;
    for change in asked {
        commands.push_reserved(change.as_command());
    }
    Ok(commands)
}
