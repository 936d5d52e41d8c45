// Carries out the command that the arguments of the process request.

ghost use Rattle.std.specs.Prelude.{◌≡◌, ◌≢◌, ◌≤◌, ◌⊎◌, IfOk, IfErr, MatchResult, false};
ghost use Rattle.std.specs.Prelude.{map, string_bytes};
ghost use Rattle.std.specs.IoError.{error_kind};
ghost use Rattle.commands.specs.Outcome.{reads_input, LineEnds, UnreadEnds};
ghost use Rattle.commands.specs.Words.{command_line};

use crate::command::run_words;
use crate::message::bad_command_line;
use crate::unread::no_memory;
use std::alloc::Global;
use std::fs::File;
use std::io;
use std::io::{ErrorKind, Read, Write};
use std::rt::{Clock, Files};

/// Does the same as `run_words` if the arguments could be read. If memory for the arguments was
/// refused, reports S11 (OutOfMemory). If they couldn't be read for another reason, reports a bad
/// command line.
pub fn run_arguments<R: Files<File = File> + Clock, I: Read, O: Write, E: Write>(
    rt: &R,
    alloc: Global,
    words: io::Result<Vec<String>>,
    input: &mut I,
    output: &mut O,
    errors: &mut E,
) -> u8
    ensures most { result ≤ 4 }

    // If the arguments could be read, the command ends in the same way as `run_words`.
    ensures ends { IfOk words (λ list.
        LineEnds (command_line (map (λ word. string_bytes word) list.items)) (record {
          unread = I.remaining input.old;
          before = O.contents output.old;
          after = O.contents output.new;
          errors_before = E.contents errors.old;
          errors_after = E.contents errors.new;
        }) result) }

    // If the arguments couldn't be read, the end depends on the error.
    ensures not_read { IfErr words (λ e. UnreadEnds (error_kind e) (record {
      unread = I.remaining input.old;
      before = O.contents output.old;
      after = O.contents output.new;
      errors_before = E.contents errors.old;
      errors_after = E.contents errors.new;
    }) result) }

    // Only `script` reads standard input.
    ensures unread { MatchResult words (λ list.
        reads_input (command_line (map (λ word. string_bytes word) list.items)) ≡ false
        → input.new ≡ input.old) (λ _. input.new ≡ input.old) }

    ensures apart { (E.contents errors.new ≡ E.contents errors.old)
        ⊎ (O.contents output.new ≡ O.contents output.old) }
    ensures silent { result ≢ 2 → result ≢ 3
        → E.contents errors.new ≡ E.contents errors.old }
{
    match words {
        Ok(words) => run_words(rt, alloc, &words, input, output, errors),
        Err(e) if e.kind() == ErrorKind::OutOfMemory => no_memory(output).number(),
        Err(_) => bad_command_line(errors).number(),
    }
}
