// Carries out a command line.

ghost use Rattle.std.specs.Prelude.{◌≡◌, ◌≢◌, ◌≤◌, ◌⊎◌, Some, None, false, map, string_bytes};
ghost use Rattle.tool_commands.specs.Form.{asks_for, command_line, deed_of, line_of, reads_input};
ghost use Rattle.tool_commands.specs.Outcome.{IsEnd, LineEnds, says_beside, warns};

use crate::form::{Action, Asked, read_words};
use crate::on_file::run_asked;
use crate::said::{bad_words, cannot_read};
use program_parts::{Behind, Status, behind_streams};
use std::alloc::Global;
use std::fs::File;
use std::io::{Read, Write};
use std::rt::{Clock, Files};

/// Carries out the action of `asked`, unless a standard stream leads, or may lead, to the disk's
/// file. Such a stream could write the output into the disk, or read the input from the disk.
fn run_apart<R: Files<File = File> + Clock, I: Read, O: Write, E: Write>(
    rt: &R,
    alloc: Global,
    asked: &Asked<'_>,
    input: &mut I,
    output: &mut O,
    errors: &mut E,
) -> Status
    ensures ends { IsEnd O.contents (Some (line_of asked.now)) (record {
      unread = I.remaining input.old;
      before = O.contents output.old;
      after = O.contents output.new;
      errors_before = E.contents errors.old;
      errors_after = E.contents errors.new;
    }) result }
    ensures unread { reads_input (deed_of asked.now.action) ≡ false → input.new ≡ input.old }
{
    let reads_input = matches!(asked.action, Action::Update);
    match behind_streams(rt, asked.disk, reads_input) {
        Behind::Other => run_asked(rt, alloc, asked, input, output, errors),
        Behind::OtherStream => cannot_read(errors, asked.disk),
        Behind::Errors => Status::Failed,
    }
}

/// Runs the program with `words`, the arguments after the program's name, and returns the exit
/// status. The status is 0 if the action was carried out, 1 if it was refused, 2 if the arguments
/// have none of the forms, 3 if the disk, its file or a stream failed, and 4 if memory was refused.
/// Only `update` reads the input.
pub fn run_words<R: Files<File = File> + Clock, I: Read, O: Write, E: Write>(
    rt: &R,
    alloc: Global,
    words: &[String],
    input: &mut I,
    output: &mut O,
    errors: &mut E,
) -> u8
    ensures most { result ≤ 4 }

    // The program ends with the status, output and messages that these arguments permit. The status
    // is 2 if and only if the arguments have none of the forms.
    ensures ends { LineEnds O.contents (command_line (map (λ word. string_bytes word) words.now))
        (record {
          unread = I.remaining input.old;
          before = O.contents output.old;
          after = O.contents output.new;
          errors_before = E.contents errors.old;
          errors_after = E.contents errors.new;
        }) result }

    // Only an update reads the input.
    ensures unread { asks_for reads_input (command_line (map (λ word. string_bytes word) words.now))
        ≡ false → input.new ≡ input.old }

    // If the arguments have none of the forms, the program writes nothing to the output.
    ensures same { command_line (map (λ word. string_bytes word) words.now) ≡ None
        → output.new ≡ output.old }

    // With status 0, the program writes nothing to standard error, unless it writes an executable
    // file.
    ensures silent { asks_for warns (command_line (map (λ word. string_bytes word) words.now))
        ≡ false → result ≡ 0 → E.contents errors.new ≡ E.contents errors.old }

    // The program writes to the output or to standard error, but not to both, unless the status is
    // 3 or the form may write to both.
    ensures apart { asks_for says_beside (command_line (map (λ word. string_bytes word) words.now))
        ≡ false → result ≢ 3 → (E.contents errors.new ≡ E.contents errors.old)
        ⊎ (O.contents output.new ≡ O.contents output.old) }
{
    match read_words(words) {
        Some(asked) => run_apart(rt, alloc, &asked, input, output, errors).number(),
        None => bad_words(errors).number(),
    }
}
