// Applies a command to the registry on any disk.

ghost use Rattle.requests.specs.Request.{request_of};
ghost use Rattle.requests.specs.declared.reply.Reply.{Reply};
ghost use Rattle.commands.specs.DiskStep.{DiskStep};
ghost use Rattle.commands.specs.OnDisk.{RequestEnds};
ghost use Rattle.commands.specs.inside.Ends.{IsWritten};

use crate::disk_answer::write_disk_answer;
use program_parts::{Status, write_reply};
use registry::Registry;
use requests::{Command, Reply};
use sector_disk::Disk;
use std::alloc::Global;
use std::io::Write;

/// Writes `reply`, and returns the status.
fn tell<O: Write>(reply: &Reply, output: &mut O) -> Status
    ensures { IsWritten reply.now (O.contents output.old) (O.contents output.new) result }
{
    match write_reply(output, reply) {
        Ok(()) => Status::of_reply(reply),
        Err(_) => Status::Failed,
    }
}

/// Applies `command` to `registry`, and writes the reply.
fn answer<D: Disk, O: Write>(
    registry: &mut Registry<D>,
    command: &Command<'_>,
    output: &mut O,
) -> Status
    ensures { (reply : Reply) × DiskStep D.facts registry.old (request_of command.now) reply
        registry.new × IsWritten reply (O.contents output.old) (O.contents output.new) result }
{
    let reply = registry.apply(command);
    tell(&reply, output)
}

/// Opens the registry on `disk`, applies `command`, and writes the reply. If the disk is refused,
/// writes the line of the refusal. Returns the status and the disk. If the output fails, the status
/// is `Failed`, although the command was applied.
pub fn run_request<D: Disk, O: Write>(
    alloc: Global,
    disk: D,
    command: &Command<'_>,
    output: &mut O,
) -> (Status, D)
    ensures { RequestEnds D.facts disk (request_of command.now)
        (O.contents output.old) (O.contents output.new) result.0 result.1 }
{
    match Registry::open(alloc, disk) {
        Ok(registry) => {
            let mut registry = registry;
            let status = answer(&mut registry, command, output);
            (status, registry.into_disk())
        }
        Err((refusal, disk)) => (write_disk_answer(Err(refusal), output), disk),
    }
}
