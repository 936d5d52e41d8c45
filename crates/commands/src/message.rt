// Writes messages to standard error. A failed write to standard error doesn't change the status.

ghost use Rattle.std.specs.Prelude.{◌≡◌};
ghost use Rattle.commands.specs.Said.{base_text, words_text};
ghost use Rattle.program_parts.specs.Said.{AppendsFront};

use program_parts::{Status, say};
use std::io::Write;

/// Reports that a file can't be read.
pub(crate) fn cannot_read<E: Write>(errors: &mut E, path: &str) -> Status
    ensures { result ≡ Status.Failed }
{
    program_parts::cannot_read(errors, "rlibreg", path)
}

/// Reports that the arguments aren't a command.
pub(crate) fn bad_command_line<E: Write>(errors: &mut E) -> Status
    ensures status { result ≡ Status.BadWords }
    ensures said { AppendsFront (E.contents errors.old) (E.contents errors.new) words_text }
{
    say(errors, b"rlibreg: bad command line\n");
    Status::BadWords
}

/// Reports that BASE isn't valid.
pub(crate) fn bad_base<E: Write>(errors: &mut E) -> Status
    ensures status { result ≡ Status.BadWords }
    ensures said { AppendsFront (E.contents errors.old) (E.contents errors.new) base_text }
{
    say(errors, b"rlibreg: bad base\n");
    Status::BadWords
}
