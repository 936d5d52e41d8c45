// The event that a line of a script requests.

ghost use Rattle.std.specs.Prelude.{◌≡◌, IfOk};
ghost use Rattle.std.specs.Option.{option_map};
ghost use Rattle.commands.specs.Line.{binder_meaning, meaning, slot_of};
ghost use Rattle.commands.specs.inside.Asked.{happening_asked};

use scripts::{AskedCommand, behind, parse_command, program_behind};
use std::alloc::{AllocError, Global};

/// The event that a line requests, with the memory that it needs.
#[derive(Drop)]
pub(crate) enum Asked<'a> {
    Apply(AskedCommand<'a>),
    Begin { program: Vec<u8>, base: u64 },
    Advance(usize),
    Cancel(usize),
}

/// Returns the slot for the word SLOT, or `None` if SLOT isn't one decimal digit.
fn slot_in(word: &[u8]) -> Option<usize>
    ensures { result ≡ slot_of word.now }
{
    match word {
        [digit] if digit.is_ascii_digit() => Some(usize::from(*digit - b'0')),
        _ => None,
    }
}

/// Returns the event of a binder that a line requests, or `None` if the line has none of these
/// forms.
fn parse_binder_line(alloc: Global, line: &[u8]) -> Result<Option<Asked<'_>>, AllocError>
    ensures { IfOk result (λ asked. option_map happening_asked asked ≡ binder_meaning line.now) }
{
    if let Some(rest) = behind(line, b"begin ") {
        return match program_behind(alloc, rest)? {
            Some((program, base)) => Ok(Some(Asked::Begin { program, base })),
            None => Ok(None),
        };
    }
    if let Some(rest) = behind(line, b"advance ") {
        return Ok(slot_in(rest).map(|slot| Asked::Advance(slot)));
    }
    if let Some(rest) = behind(line, b"cancel ") {
        return Ok(slot_in(rest).map(|slot| Asked::Cancel(slot)));
    }
    Ok(None)
}

/// Returns the event that a line requests, or `None` if the line has none of the forms. Fails only
/// if memory is refused.
pub(crate) fn parse_line(alloc: Global, line: &[u8]) -> Result<Option<Asked<'_>>, AllocError>
    ensures { IfOk result (λ asked. option_map happening_asked asked ≡ meaning line.now) }
{
    match parse_command(alloc, line)? {
        Some(command) => Ok(Some(Asked::Apply(command))),
        None => parse_binder_line(alloc, line),
    }
}
