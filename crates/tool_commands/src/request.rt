// Applies a command to the registry on any disk, even if some files aren't libraries.

ghost use Rattle.requests.specs.Request.{request_of};
ghost use Rattle.requests.specs.declared.reply.Reply.{Reply};
ghost use Rattle.tool_commands.specs.Request.{DiskStep, RequestEnds};
ghost use Rattle.tool_commands.specs.Telling.{TellsReply};

use crate::telling::{Telling, tell};
use program_parts::Status;
use registry::Registry;
use requests::Command;
use sector_disk::Disk;
use std::alloc::Global;
use std::io::Write;
use tool_parts::say_refusal;

/// Applies `command` to `registry`, and writes the reply.
fn answer<D: Disk, O: Write, E: Write>(
    registry: &mut Registry<D>,
    alloc: Global,
    command: &Command<'_>,
    telling: Telling,
    output: &mut O,
    errors: &mut E,
) -> Status
    ensures { (reply : Reply)
        × DiskStep D.facts registry.old (request_of command.now) reply registry.new
        × TellsReply telling reply (record {
          before = O.contents output.old;
          after = O.contents output.new;
          errors_before = E.contents errors.old;
          errors_after = E.contents errors.new;
        }) result }
{
    let reply = registry.apply(command);
    tell(alloc, telling, &reply, output, errors)
}

/// Opens the registry on `disk` without testing its libraries, applies `command`, and writes the
/// reply. A command can replace or remove a library that is damaged or can't be read, and can
/// change other libraries in spite of it. If the disk is refused, reports why. Returns the status
/// and the disk. If the output fails, the status is `Failed`, although the command was applied.
pub fn run_request<D: Disk, O: Write, E: Write>(
    alloc: Global,
    disk: D,
    command: &Command<'_>,
    telling: Telling,
    output: &mut O,
    errors: &mut E,
) -> (Status, D)
    ensures { RequestEnds D.facts disk (request_of command.now) telling
        (record {
          before = O.contents output.old;
          after = O.contents output.new;
          errors_before = E.contents errors.old;
          errors_after = E.contents errors.new;
        }) result.0 result.1 }
{
    match Registry::open_untested(alloc, disk) {
        Ok(registry) => {
            let mut registry = registry;
            let status = answer(&mut registry, alloc, command, telling, output, errors);
            (status, registry.into_disk())
        }
        Err((refusal, disk)) => (say_refusal(alloc, refusal, errors), disk),
    }
}
