// Carries out a command line.

ghost use Rattle.std.specs.Prelude.{◌≡◌, ◌≢◌, ◌≤◌, ◌⊎◌, true, false};
ghost use Rattle.std.specs.Prelude.{Some, None, MatchResult, map, string_bytes};
ghost use Rattle.program_parts.specs.Base.{base_of};
ghost use Rattle.commands.specs.Outcome.{are_bad, reads_input, CommandEnds, LineEnds};
ghost use Rattle.commands.specs.Said.{bad_text, base_text};
ghost use Rattle.commands.specs.Words.{command_line, line_of};
ghost use Rattle.program_parts.specs.declared.status.Status.TheVariants.{BadWords, Failed};
ghost use Rattle.commands.specs.inside.Ends.{ImageEnds, IsNotRead, IsSaid, IsShown};

use crate::action::{Action, read_words};
use crate::message::{bad_base, bad_command_line, cannot_read};
use crate::on_disk::{ask, bind, format, preload, upgrade};
use crate::script_on_disk::script;
use crate::show::run_image;
use crate::status::status_of;
use crate::unread::not_read;
use crate::with_file::{WithFile, ask_with};
use program_parts::{Behind, FileFault, Status, behind_streams, parse_base, read_file};
use requests::Command;
use std::alloc::Global;
use std::fs::File;
use std::io::{Read, Write};
use std::rt::{Clock, Files};

/// Writes the image of a file that was read, or reports why the file wasn't read.
pub(crate) fn show_read<O: Write, E: Write>(
    alloc: Global,
    read: Result<Vec<u8>, FileFault>,
    path: &str,
    base: u64,
    output: &mut O,
    errors: &mut E,
) -> Status
    ensures shown { MatchResult read
        (λ bytes. IsShown bytes.items base (O.contents output.old) (O.contents output.new) result)
        (λ fault. IsNotRead fault (O.contents output.old) (O.contents output.new) result) }
    ensures said { IsSaid base_text (O.contents output.old) (O.contents output.new)
        (E.contents errors.old) (E.contents errors.new) result }
{
    match read {
        Ok(bytes) => status_of(run_image(alloc, &bytes, base, output)),
        Err(fault) => not_read(fault, path, output, errors),
    }
}

/// Carries out `image PROGRAM BASE`.
fn image<R: Files, O: Write, E: Write>(
    rt: &R,
    alloc: Global,
    program: &str,
    base: &str,
    output: &mut O,
    errors: &mut E,
) -> Status
    ensures ends { ImageEnds (base_of base.now) (O.contents output.old) (O.contents output.new)
        result }
    ensures said { IsSaid base_text (O.contents output.old) (O.contents output.new)
        (E.contents errors.old) (E.contents errors.new) result }
{
    match parse_base(base) {
        Some(base) => {
            let read = read_file(rt, alloc, program);
            show_read(alloc, read, program, base, output, errors)
        }
        None => bad_base(errors),
    }
}

/// Carries out a command.
#[tactic(auto, using(crate::proofs::Asking::commands_end))]
fn run_action<R: Files<File = File> + Clock, I: Read, O: Write, E: Write>(
    rt: &R,
    alloc: Global,
    action: &Action<'_>,
    input: &mut I,
    output: &mut O,
    errors: &mut E,
) -> Status
    ensures ends { CommandEnds (Some (line_of action.now)) (record {
      unread = I.remaining input.old;
      before = O.contents output.old;
      after = O.contents output.new;
    }) result }
    ensures unread { reads_input (Some (line_of action.now)) ≡ false → input.new ≡ input.old }
    ensures said { IsSaid base_text (O.contents output.old) (O.contents output.new)
        (E.contents errors.old) (E.contents errors.new) result }
{
    match *action {
        Action::Image { program, base } => image(rt, alloc, program, base, output, errors),
        Action::Format { disk, sectors } => format(rt, alloc, disk, sectors, output, errors),
        Action::Upgrade { disk } => upgrade(rt, alloc, disk, output, errors),
        Action::Install { disk, file } => {
            ask_with(rt, alloc, disk, WithFile::Install, file, output, errors)
        }
        Action::Replace { disk, file } => {
            ask_with(rt, alloc, disk, WithFile::Replace, file, output, errors)
        }
        Action::Remove { disk, name } => {
            let command = Command::Remove(name.as_bytes());
            ask(rt, alloc, disk, &command, output, errors)
        }
        Action::Preload { disk, names } => preload(rt, alloc, disk, names, output, errors),
        Action::List { disk } => ask(rt, alloc, disk, &Command::List, output, errors),
        Action::Bind {
            disk,
            program,
            base,
        } => bind(rt, alloc, disk, program, base, output, errors),
        Action::Script { disk } => script(rt, alloc, disk, input, output, errors),
    }
}

/// Returns whether the command has a BASE that isn't a valid address.
fn has_bad_base(action: &Action<'_>) -> bool
    ensures { result ≡ are_bad (Some (line_of action.now)) }
{
    match *action {
        Action::Image { base, .. } | Action::Bind { base, .. } => parse_base(base).is_none(),
        _ => false,
    }
}

/// Refuses a command because the standard stream `behind` leads to the file of the command's disk.
/// Reports on standard error that BASE isn't valid, or that the file can't be read. If `behind` is
/// standard error, reports nothing.
fn keep_away<E: Write>(action: &Action<'_>, disk: &str, behind: Behind, errors: &mut E) -> Status
    ensures ends { ((result ≡ BadWords) × (are_bad (Some (line_of action.now)) ≡ true))
        ⊎ ((result ≡ Failed) × (are_bad (Some (line_of action.now)) ≡ false)) }
    ensures said { IsSaid base_text None None (E.contents errors.old) (E.contents errors.new)
        result }
{
    match (has_bad_base(action), behind) {
        (true, Behind::Errors) => Status::BadWords,
        (false, Behind::Errors) => Status::Failed,
        (true, _) => bad_base(errors),
        (false, _) => cannot_read(errors, disk),
    }
}

/// Returns the path of a command's disk, and the standard stream that leads to the disk's file, if
/// there is such a stream.
fn disk_behind<'a, R: Files>(rt: &R, action: &Action<'a>) -> Option<(&'a str, Behind)> {
    let disk = action.disk()?;
    let reads_input = matches!(action, Action::Script { .. });
    match behind_streams(rt, disk, reads_input) {
        Behind::Other => None,
        behind => Some((disk, behind)),
    }
}

/// Carries out the command that the arguments request, unless a standard stream leads to its disk's
/// file.
fn run_command<R: Files<File = File> + Clock, I: Read, O: Write, E: Write>(
    rt: &R,
    alloc: Global,
    words: &[String],
    input: &mut I,
    output: &mut O,
    errors: &mut E,
) -> Status
    ensures ends { CommandEnds (command_line (map (λ word. string_bytes word) words.now))
        (record {
          unread = I.remaining input.old;
          before = O.contents output.old;
          after = O.contents output.new;
        }) result }
    ensures unread { reads_input (command_line (map (λ word. string_bytes word) words.now)) ≡ false
        → input.new ≡ input.old }
    ensures said { IsSaid (bad_text (command_line (map (λ word. string_bytes word) words.now)))
        (O.contents output.old) (O.contents output.new)
        (E.contents errors.old) (E.contents errors.new) result }
{
    match read_words(words) {
        Some(action) => match disk_behind(rt, &action) {
            None => run_action(rt, alloc, &action, input, output, errors),
            Some((disk, behind)) => keep_away(&action, disk, behind, errors),
        },
        None => bad_command_line(errors),
    }
}

/// Carries out the command that `words`, the arguments after the program's name, request. Returns
/// the program's exit status: 0 if the command was carried out, 1 if it was refused, 2 if the
/// arguments aren't a command or BASE isn't valid, 3 if the disk, a file or a stream failed, and 4
/// if memory was refused. The status of a script is the greatest of the statuses of its lines. Only
/// `script` reads standard input. Reads the file FILE or PROGRAM before it opens DISK.
pub fn run_words<R: Files<File = File> + Clock, I: Read, O: Write, E: Write>(
    rt: &R,
    alloc: Global,
    words: &[String],
    input: &mut I,
    output: &mut O,
    errors: &mut E,
) -> u8
    ensures most { result ≤ 4 }

    // The status determines the effect of the command, the text on standard output and, if the
    // status is 2, the text on standard error.
    ensures ends { LineEnds (command_line (map (λ word. string_bytes word) words.now)) (record {
      unread = I.remaining input.old;
      before = O.contents output.old;
      after = O.contents output.new;
      errors_before = E.contents errors.old;
      errors_after = E.contents errors.new;
    }) result }

    // Only `script` reads standard input.
    ensures unread { reads_input (command_line (map (λ word. string_bytes word) words.now)) ≡ false
        → input.new ≡ input.old }

    // If a message is written to standard error, such as one about a file that can't be read,
    // nothing is written to standard output.
    ensures apart { (E.contents errors.new ≡ E.contents errors.old)
        ⊎ (O.contents output.new ≡ O.contents output.old) }

    // Something is written to standard error only if the status is 2 or 3.
    ensures silent { result ≢ 2 → result ≢ 3
        → E.contents errors.new ≡ E.contents errors.old }
{
    run_command(rt, alloc, words, input, output, errors).number()
}
