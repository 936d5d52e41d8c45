// Writes a reply.

ghost use Rattle.std.specs.Prelude.{◌≡◌, ◌++◌, OnOk};
ghost use Rattle.program_parts.specs.Reply.{reply_text};
ghost use Rattle.program_parts.specs.Said.{AppendsFront};
ghost use Rattle.program_parts.specs.Status.{reply_status};
ghost use Rattle.tool_parts.specs.Said.{said_line};
ghost use Rattle.tool_parts.specs.Streams.{TellsOnly};
ghost use Rattle.tool_commands.specs.Telling.{TellsReply};

use crate::bound::tell_executable;
use program_parts::{Line, Status, put_reply, say, write_reply};
use requests::Reply;
use std::alloc::Global;
use std::io::Write;
use text_output::WriteFault;
use tool_parts::cannot_write;

/// The way in which a reply is written.
#[derive(Clone, Copy, PartialEq, Eq)]
pub enum Telling {
    /// The text of the reply is written to the output.
    Text,
    /// An image is written to the output as an executable file. The text of any other reply is
    /// written to standard error.
    Executable,
}

/// Writes the text of a reply, or reports that the output failed.
fn tell_text<O: Write, E: Write>(reply: &Reply, output: &mut O, errors: &mut E) -> Status
    ensures { TellsOnly (reply_status reply.now) (reply_text reply.now) (record {
      before = O.contents output.old;
      after = O.contents output.new;
      errors_before = E.contents errors.old;
      errors_after = E.contents errors.new;
    }) result }
{
    match write_reply(output, reply) {
        Ok(()) => Status::of_reply(reply),
        Err(_) => cannot_write(errors),
    }
}

/// Appends `rlibreg-tool: ` and the text of a reply to `line`.
fn spell_reply(line: &mut Vec<u8>, reply: &Reply) -> Result<(), WriteFault>
    ensures { OnOk result
        (line.new.items ≡ line.old.items ++ said_line (reply_text reply.now)) }
{
    let mut text = Line::new();
    text.put(line, b"rlibreg-tool: ")?;
    put_reply(&mut text, line, reply)?;
    text.send(line)
}

/// Writes the line of a reply to standard error, if there is memory for the line. Returns the
/// status.
pub(crate) fn say_reply<E: Write>(alloc: Global, reply: &Reply, errors: &mut E) -> Status
    ensures status { result ≡ reply_status reply.now }
    ensures said { AppendsFront (E.contents errors.old) (E.contents errors.new)
        (said_line (reply_text reply.now)) }
{
    let mut line = Vec::new(alloc);
    if spell_reply(&mut line, reply).is_ok() {
        say(errors, &line);
    }
    Status::of_reply(reply)
}

/// Writes `reply` in the way that `telling` determines. If the output fails, returns `Failed`.
pub(crate) fn tell<O: Write, E: Write>(
    alloc: Global,
    telling: Telling,
    reply: &Reply,
    output: &mut O,
    errors: &mut E,
) -> Status
    ensures { TellsReply telling reply.now (record {
      before = O.contents output.old;
      after = O.contents output.new;
      errors_before = E.contents errors.old;
      errors_after = E.contents errors.new;
    }) result }
{
    match (telling, reply) {
        (Telling::Text, reply) => tell_text(reply, output, errors),
        (Telling::Executable, Reply::Bound(image)) => {
            tell_executable(alloc, image, output, errors)
        }
        (Telling::Executable, reply) => say_reply(alloc, reply, errors),
    }
}
