// The answer to a line of a script.

ghost use Rattle.std.specs.Prelude.{◌≡◌, ℕ, List, not, IfErr, OnOk};
ghost use Rattle.std.specs.Option.{option_map};
ghost use Rattle.text_output.specs.Sends.{Sends};
ghost use Rattle.commands.specs.Answer.{LineStep, answer_text, is_failure, is_refused, may_wait};
ghost use Rattle.commands.specs.Line.{is_no_change, meaning};
ghost use Rattle.commands.specs.inside.Asked.{happening_asked};

use crate::asked::Asked;
use crate::event_reply::put_event_reply;
use crate::takes_events::TakesEvents;
use binders::{Event, EventReply};
use program_parts::Line;
use requests::{Refusal, Reply};
use scripts::{AskedCommand, LineRefusal, ScriptFault, put_line_refusal};
use std::io::Write;

/// The answer to a line of a script.
#[derive(Drop)]
pub enum Answer {
    /// The reply to the event that the line requests.
    Replied(EventReply),
    /// L1 (BadLine): the line has none of the forms.
    BadLine,
    /// L2 (CutLine): the last line has no newline, so it isn't run.
    CutLine,
}

/// Carries out the event that a line requests, and returns the reply.
fn happen<G: TakesEvents>(binders: &mut G, asked: &Asked<'_>) -> EventReply
    ensures { G.step binders.old (happening_asked asked.now) result binders.new }
{
    match asked {
        Asked::Apply(command) => binders.happen(&Event::Apply(command.as_command())),
        Asked::Begin { program, base } => binders.happen(&Event::Begin {
            program,
            base: *base,
        }),
        Asked::Advance(slot) => binders.happen(&Event::Advance(*slot)),
        Asked::Cancel(slot) => binders.happen(&Event::Cancel(*slot)),
    }
}

/// Returns whether a line requests a change of the registry or of a binder.
fn asks_change(asked: &Option<Asked<'_>>) -> bool
    ensures { not result ≡ is_no_change (option_map happening_asked asked.now) }
{
    match asked {
        Some(Asked::Apply(AskedCommand::List | AskedCommand::Bind { .. })) | None => false,
        Some(_) => true,
    }
}

/// Answers a line: carries out the event that it requests, or returns L1 (BadLine).
pub(crate) fn answer_asked<G: TakesEvents>(binders: &mut G, asked: &Option<Asked<'_>>) -> Answer
    ensures { (line : List ℕ) → option_map happening_asked asked.now ≡ meaning line
        → LineStep G.step binders.old line result binders.new }
{
    match asked {
        Some(asked) => Answer::Replied(happen(binders, asked)),
        None => Answer::BadLine,
    }
}

/// Returns whether an answer is counted as a refusal.
pub(crate) fn is_refused(answer: &Answer) -> bool
    ensures { result ≡ is_refused answer.now }
{
    match answer {
        Answer::Replied(EventReply::Replied(Reply::Refused(_))) => true,
        Answer::Replied(_) => false,
        Answer::BadLine | Answer::CutLine => true,
    }
}

/// Returns whether an answer refuses with S1 (Device) or S2 (Reopen).
fn is_failure(answer: &Answer) -> bool
    ensures { result ≡ is_failure answer.now }
{
    match answer {
        Answer::Replied(EventReply::Replied(Reply::Refused(refusal))) => {
            matches!(refusal, Refusal::Device | Refusal::Reopen)
        }
        _ => false,
    }
}

/// Returns whether the answer to a line may be sent later, together with other answers. It may be
/// sent later if the line changed nothing and the answer reports no failure. After S1 (Device), the
/// line may have made a change.
pub(crate) fn may_wait(asked: &Option<Asked<'_>>, answer: &Answer) -> bool
    ensures { (line : List ℕ) → option_map happening_asked asked.now ≡ meaning line
        → result ≡ may_wait line answer.now }
{
    !is_failure(answer) && (is_refused(answer) || !asks_change(asked))
}

/// Appends the text of an answer to the answers that haven't been sent yet.
pub(crate) fn put_answer<W: Write>(
    waiting: &mut Line,
    out: &mut W,
    answer: &Answer,
) -> Result<(), ScriptFault>
    ensures ok { OnOk result (Sends
        (W.contents out.old) waiting.old (W.contents out.new) waiting.new
        (answer_text answer.now)) }
    ensures err { IfErr result (λ fault. fault ≡ ScriptFault.Write) }
{
    match answer {
        Answer::Replied(reply) => put_event_reply(waiting, out, reply)?,
        Answer::BadLine => put_line_refusal(waiting, out, LineRefusal::BadLine)?,
        Answer::CutLine => put_line_refusal(waiting, out, LineRefusal::CutLine)?,
    }
    Ok(())
}
