// Runs the program with the arguments of the process, or reports that the arguments couldn't be
// read.

ghost use Rattle.std.specs.Prelude.{◌≡◌, ◌≢◌, ◌≤◌, ◌⊎◌, IfErr, OnOk, None, false};
ghost use Rattle.std.specs.IoError.{error_kind};
ghost use Rattle.tool_commands.specs.Form.{asks_for, line_read, reads_input};
ghost use Rattle.tool_commands.specs.Outcome.{LineEnds, UnreadEnds, says_beside, warns};

use crate::command::run_words;
use crate::said::bad_words;
use std::alloc::Global;
use std::fs::File;
use std::io;
use std::io::{ErrorKind, Read, Write};
use std::rt::{Clock, Files};
use store::StoreRefusal;
use tool_parts::say_refusal;

/// Does the same as `run_words` if the arguments could be read. If memory for the arguments was
/// refused, reports this. If they couldn't be read for another reason, reports the usage, as it
/// does for arguments that have none of the forms.
pub fn run_arguments<R: Files<File = File> + Clock, I: Read, O: Write, E: Write>(
    rt: &R,
    alloc: Global,
    words: io::Result<Vec<String>>,
    input: &mut I,
    output: &mut O,
    errors: &mut E,
) -> u8
    ensures most { result ≤ 4 }

    // If the arguments could be read, the program ends in the same way as `run_words`.
    ensures ends { OnOk words (LineEnds O.contents (line_read words) (record {
      unread = I.remaining input.old;
      before = O.contents output.old;
      after = O.contents output.new;
      errors_before = E.contents errors.old;
      errors_after = E.contents errors.new;
    }) result) }

    // If the arguments couldn't be read, the end depends on the error.
    ensures not_read { IfErr words (λ e. UnreadEnds O.contents (error_kind e) (record {
      unread = I.remaining input.old;
      before = O.contents output.old;
      after = O.contents output.new;
      errors_before = E.contents errors.old;
      errors_after = E.contents errors.new;
    }) result) }

    // Only an update reads the input.
    ensures unread { asks_for reads_input (line_read words) ≡ false → input.new ≡ input.old }
    ensures same { line_read words ≡ None → output.new ≡ output.old }
    ensures silent { asks_for warns (line_read words) ≡ false → result ≡ 0
        → E.contents errors.new ≡ E.contents errors.old }
    ensures apart { asks_for says_beside (line_read words) ≡ false → result ≢ 3
        → (E.contents errors.new ≡ E.contents errors.old)
        ⊎ (O.contents output.new ≡ O.contents output.old) }
{
    match words {
        Ok(words) => run_words(rt, alloc, &words, input, output, errors),
        Err(e) if e.kind() == ErrorKind::OutOfMemory => {
            say_refusal(alloc, StoreRefusal::OutOfMemory, errors).number()
        }
        Err(_) => bad_words(errors).number(),
    }
}
