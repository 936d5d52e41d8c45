// Writes the text of the reply to an event.

ghost use Rattle.std.specs.Prelude.{◌≡◌, ◌++◌, codes, true, OnOk, OnErr, IfErr};
ghost use Rattle.std.specs.Fmt.{decimal};
ghost use Rattle.text_output.specs.Sends.{Sends};
ghost use Rattle.commands.specs.EventReply.{event_text, slot_text};

use binders::EventReply;
use program_parts::{Line, put_reply};
use scripts::ScriptFault;
use std::io::Write;
use text_output::WriteFault;

/// Appends the line with the slot of a new binder.
fn put_slot<W: Write>(line: &mut Line, out: &mut W, slot: usize) -> Result<(), WriteFault>
    ensures ok { OnOk result (Sends (W.contents out.old) line.old (W.contents out.new) line.new
        (slot_text slot)) }
    ensures err { OnErr result (line.new.failed ≡ true) }
{
    line.put(out, b"slot ")?;
    line.put_decimal(out, slot as u64)?;
    line.put(out, b"\n")?;
    Ok(())
}

/// Appends the text of the reply to an event to the text that hasn't been sent yet. Allocates no
/// memory.
pub(crate) fn put_event_reply<W: Write>(
    line: &mut Line,
    out: &mut W,
    reply: &EventReply,
) -> Result<(), ScriptFault>
    ensures ok { OnOk result (Sends (W.contents out.old) line.old (W.contents out.new) line.new
        (event_text reply.now)) }
    ensures err { IfErr result (λ fault. fault ≡ ScriptFault.Write) }
{
    match reply {
        EventReply::Replied(reply) => put_reply(line, out, reply)?,
        EventReply::Slot(slot) => put_slot(line, out, *slot)?,
        EventReply::Going => line.put(out, b"going\n")?,
    }
    Ok(())
}
