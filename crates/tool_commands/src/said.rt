// Writes messages to standard error.

ghost use Rattle.std.specs.Prelude.{◌≡◌};
ghost use Rattle.program_parts.specs.Said.{AppendsFront};
ghost use Rattle.program_parts.specs.declared.status.Status.TheVariants.{Refused, BadWords, Failed};
ghost use Rattle.tool_commands.specs.Said.{not_installed_line, usage_line};

use program_parts::{Status, say};
use std::io::Write;

/// Reports C3 (NotInstalled): no installed library has the name in the arguments.
pub(crate) fn say_not_installed<E: Write>(errors: &mut E) -> Status
    ensures status { result ≡ Refused }
    ensures said { AppendsFront (E.contents errors.old) (E.contents errors.new)
        not_installed_line }
{
    say(errors, b"rlibreg-tool: refused C3 NotInstalled\n");
    Status::Refused
}

/// Reports the usage, because the arguments have none of the forms.
pub(crate) fn bad_words<E: Write>(errors: &mut E) -> Status
    ensures status { result ≡ BadWords }
    ensures said { AppendsFront (E.contents errors.old) (E.contents errors.new) usage_line }
{
    say(
        errors,
        b"usage: rlibreg-tool info|check|digest|dump|update DISK, dump DISK commit, \
          file|remove DISK NAME, replace DISK FILE or executable|bindings DISK PROGRAM BASE\n",
    );
    Status::BadWords
}

/// Reports that the file at `path` can't be read.
pub(crate) fn cannot_read<E: Write>(errors: &mut E, path: &str) -> Status
    ensures { result ≡ Failed }
{
    program_parts::cannot_read(errors, "rlibreg-tool", path)
}
