// Reports the end of an update, after its draft was committed or given up.

ghost use Rattle.requests.specs.Step.{answer_of};
ghost use Rattle.program_parts.specs.Reply.{reply_text};
ghost use Rattle.program_parts.specs.Status.{reply_status};
ghost use Rattle.tool_parts.specs.Streams.{TellsOnly};
ghost use Rattle.updates.specs.Answer.{update_refusal_text};
ghost use Rattle.updates.specs.Status.{update_status};
ghost use Rattle.updates.specs.inside.Committed.{commit_result};

use crate::answer::{UpdateRefusal, put_refusal};
use crate::commit::Committed;
use program_parts::{Line, Status, write_reply};
use requests::{Refusal, Reply};
use std::io::Write;
use tool_parts::cannot_write;

/// Writes the reason why an update is refused, and returns its status. If the output fails, reports
/// this on standard error.
pub(crate) fn report_refusal<O: Write, E: Write>(
    refusal: UpdateRefusal,
    output: &mut O,
    errors: &mut E,
) -> Status
    ensures { TellsOnly (update_status refusal) (update_refusal_text refusal) (record {
      before = O.contents output.old;
      after = O.contents output.new;
      errors_before = E.contents errors.old;
      errors_after = E.contents errors.new;
    }) result }
{
    let mut line = Line::new();
    let Ok(status) = put_refusal(&mut line, output, refusal) else {
        return cannot_write(errors);
    };
    match line.send(output) {
        Ok(()) => status,
        Err(_) => cannot_write(errors),
    }
}

/// Writes the answer to a commit: `ok`, which no other function of an update writes, or the reason
/// why the commit was refused. The function gets no disk, update or registry, so it can't commit
/// anything.
pub(crate) fn report_commit<O: Write, E: Write>(
    answer: Result<Committed, Refusal>,
    output: &mut O,
    errors: &mut E,
) -> Status
    ensures { TellsOnly (reply_status (answer_of (commit_result answer)))
        (reply_text (answer_of (commit_result answer))) (record {
          before = O.contents output.old;
          after = O.contents output.new;
          errors_before = E.contents errors.old;
          errors_after = E.contents errors.new;
        }) result }
{
    match answer {
        Ok(_) => match write_reply(output, &Reply::Done) {
            Ok(()) => Status::Done,
            Err(_) => cannot_write(errors),
        },
        Err(refusal) => report_refusal(UpdateRefusal::Refused(refusal), output, errors),
    }
}
