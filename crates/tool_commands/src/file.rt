// Writes the bytes of a library.

ghost use Rattle.std.specs.Prelude.{◌≡◌};
ghost use Rattle.states.specs.State.{State};
ghost use Rattle.store.specs.IsRead.{IsRead};
ghost use Rattle.store.specs.Opened.{IsAt};
ghost use Rattle.program_parts.specs.declared.status.Status.TheVariants.{Done};
ghost use Rattle.tool_commands.specs.AnyDisk.{FileTells};
ghost use Rattle.tool_commands.specs.Ends.{FileEnds};
ghost use Rattle.program_parts.specs.Said.{AppendsFront};
ghost use Rattle.tool_parts.specs.Streams.{TellsOnly};
ghost use Rattle.tool_commands.specs.inside.Unread.{unread_line, unread_status};

use crate::said::say_not_installed;
use contents::{Contents, Unread};
use program_parts::Status;
use sector_disk::Disk;
use std::alloc::Global;
use std::io::Write;
use store::StoreRefusal;
use tool_parts::{cannot_write, say_refusal};

/// Writes `bytes`, or reports that the output failed.
fn write_bytes<O: Write, E: Write>(bytes: &[u8], output: &mut O, errors: &mut E) -> Status
    ensures { TellsOnly Done bytes.now (record {
      before = O.contents output.old;
      after = O.contents output.new;
      errors_before = E.contents errors.old;
      errors_after = E.contents errors.new;
    }) result }
{
    match output.write_all(bytes) {
        Ok(()) => Status::Done,
        Err(_) => cannot_write(errors),
    }
}

/// Reports why the bytes of a library can't be written, and returns the status.
fn say_unread<E: Write>(alloc: Global, unread: Unread, errors: &mut E) -> Status
    ensures status { result ≡ unread_status unread }
    ensures said { AppendsFront (E.contents errors.old) (E.contents errors.new)
        (unread_line unread) }
{
    match unread {
        Unread::NotInstalled => say_not_installed(errors),
        Unread::Unreadable => say_refusal(alloc, StoreRefusal::Device, errors),
        Unread::OutOfMemory => say_refusal(alloc, StoreRefusal::OutOfMemory, errors),
    }
}

/// Writes exactly the bytes of the library named `name`. Doesn't test whether these bytes are a
/// library.
pub fn run_file<D: Disk, O: Write, E: Write>(
    contents: &mut Contents<D>,
    alloc: Global,
    name: &[u8],
    output: &mut O,
    errors: &mut E,
) -> Status
    ensures read { IsRead D.facts contents.old contents.new }
    ensures ends { (s : State) → IsAt D.facts contents.old s
        → FileEnds (D.facts contents.old.disk) (D.facts contents.new.disk) s name.now (record {
          before = O.contents output.old;
          after = O.contents output.new;
          errors_before = E.contents errors.old;
          errors_after = E.contents errors.new;
        }) result }

    // The clauses from here on hold on any disk, honest or not.
    ensures told { FileTells (D.facts contents.old.disk) (D.facts contents.new.disk) (record {
      before = O.contents output.old;
      after = O.contents output.new;
      errors_before = E.contents errors.old;
      errors_after = E.contents errors.new;
    }) result }
{
    match contents.file(alloc, name) {
        Ok(bytes) => write_bytes(&bytes, output, errors),
        Err(unread) => say_unread(alloc, unread, errors),
    }
}
