// Appends the answers to the lines of an update to a buffered text.

ghost use Rattle.std.specs.Prelude.{◌≡◌, IfErr, IfOk, OnErr, OnOk, true};
ghost use Rattle.text_output.specs.Sends.{Sends};
ghost use Rattle.updates.specs.Answer.{plan_text, update_refusal_text};
ghost use Rattle.updates.specs.Status.{update_status};
ghost use Rattle.scripts.specs.declared.fault.ScriptFault.TheVariants.{Write as WriteFailed};

use program_parts::{Line, Status, put_reply};
use requests::{Refusal, Reply};
use scripts::{LineRefusal, ScriptFault, put_line_refusal};
use std::io::Write;

/// The reason why an update is refused.
#[derive(Drop)]
pub enum UpdateRefusal {
    /// L1: a line has none of the forms.
    BadLine,
    /// L2: the last line has no newline.
    CutLine,
    /// L3: no line is `commit`.
    NoCommit,
    /// The command of a line, or the commit, was refused.
    Refused(Refusal),
}

/// Appends the text of an answer to the buffered text. The text is `planned` for a change and
/// `bound` for a bind, because the draft isn't on the disk yet.
pub(crate) fn put_plan<W: Write>(
    waiting: &mut Line,
    out: &mut W,
    reply: &Reply,
) -> Result<(), ScriptFault>
    ensures ok { OnOk result (Sends (W.contents out.old) waiting.old (W.contents out.new)
        waiting.new (plan_text reply.now)) }
    ensures err { IfErr result (λ fault. fault ≡ WriteFailed) }
    ensures failed { reply.now ≡ Reply.Done → OnErr result (waiting.new.failed ≡ true) }
{
    match reply {
        Reply::Done => waiting.put(out, b"planned\n")?,
        Reply::Bound(_) => waiting.put(out, b"bound\n")?,
        reply => put_reply(waiting, out, reply)?,
    }
    Ok(())
}

/// Appends the text about a refused update to the buffered text. Returns the status.
pub(crate) fn put_refusal<W: Write>(
    waiting: &mut Line,
    out: &mut W,
    refusal: UpdateRefusal,
) -> Result<Status, ScriptFault>
    ensures ok { OnOk result (Sends (W.contents out.old) waiting.old (W.contents out.new)
        waiting.new (update_refusal_text refusal)) }
    ensures status { IfOk result (λ status. status ≡ update_status refusal) }
    ensures err { IfErr result (λ fault. fault ≡ WriteFailed) }
    ensures failed { refusal ≡ UpdateRefusal.NoCommit
        → OnErr result (waiting.new.failed ≡ true) }
{
    match refusal {
        UpdateRefusal::BadLine => put_line_refusal(waiting, out, LineRefusal::BadLine)?,
        UpdateRefusal::CutLine => put_line_refusal(waiting, out, LineRefusal::CutLine)?,
        UpdateRefusal::NoCommit => waiting.put(out, b"refused L3 NoCommit\n")?,
        UpdateRefusal::Refused(refusal) => {
            let reply = Reply::Refused(refusal);
            put_reply(waiting, out, &reply)?;
            return Ok(Status::of_reply(&reply));
        }
    }
    Ok(Status::Refused)
}
