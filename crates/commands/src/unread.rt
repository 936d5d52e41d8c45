// Writes the answer of a command whose file can't be read.

ghost use Rattle.std.specs.Prelude.{◌≡◌, false};
ghost use Rattle.program_parts.specs.Refusal.{memory_text};
ghost use Rattle.program_parts.specs.Told.{IsTold};
ghost use Rattle.program_parts.specs.declared.status.Status.TheVariants.{NoMemory};
ghost use Rattle.commands.specs.Said.{base_text};
ghost use Rattle.commands.specs.inside.Ends.{IsNotRead, IsSaid};

use crate::message::cannot_read;
use program_parts::{FileFault, Status, write_disk_refusal};
use std::io::Write;
use store::StoreRefusal;

/// Writes the line for refused memory.
pub(crate) fn no_memory<O: Write>(output: &mut O) -> Status
    ensures { IsTold NoMemory memory_text (O.contents output.old) (O.contents output.new) result }
{
    match write_disk_refusal(output, StoreRefusal::OutOfMemory) {
        Ok(()) => Status::NoMemory,
        Err(_) => Status::Failed,
    }
}

/// Reports why a file can't be read.
pub(crate) fn not_read<O: Write, E: Write>(
    fault: FileFault,
    path: &str,
    output: &mut O,
    errors: &mut E,
) -> Status
    ensures ends { IsNotRead fault (O.contents output.old) (O.contents output.new) result }
    ensures said { IsSaid base_text (O.contents output.old) (O.contents output.new)
        (E.contents errors.old) (E.contents errors.new) result }
{
    match fault {
        FileFault::CannotRead => cannot_read(errors, path),
        FileFault::OutOfMemory => no_memory(output),
    }
}
