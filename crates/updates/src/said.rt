// Writes messages to standard error.

ghost use Rattle.std.specs.Prelude.{◌≡◌};
ghost use Rattle.program_parts.specs.Said.{AppendsFront};
ghost use Rattle.program_parts.specs.declared.status.Status.TheVariants.{NoMemory};
ghost use Rattle.tool_parts.specs.Said.{memory_line};
ghost use Rattle.updates.specs.Said.{fault_line};
ghost use Rattle.updates.specs.Status.{fault_status};

use program_parts::{Status, say};
use scripts::ScriptFault;
use std::io::Write;
use tool_parts::cannot_write;

/// Reports that memory was refused.
pub(crate) fn no_memory<E: Write>(errors: &mut E) -> Status
    ensures status { result ≡ NoMemory }
    ensures said { AppendsFront (E.contents errors.old) (E.contents errors.new) memory_line }
{
    say(errors, b"rlibreg-tool: refused S11 OutOfMemory\n");
    Status::NoMemory
}

/// Reports why no more lines were read.
pub(crate) fn say_fault<E: Write>(fault: ScriptFault, errors: &mut E) -> Status
    ensures status { result ≡ fault_status fault }
    ensures said { AppendsFront (E.contents errors.old) (E.contents errors.new)
        (fault_line fault) }
{
    match fault {
        ScriptFault::Read => {
            say(errors, b"rlibreg-tool: cannot read\n");
            Status::Failed
        }
        ScriptFault::Write => cannot_write(errors),
        ScriptFault::OutOfMemory => no_memory(errors),
    }
}
