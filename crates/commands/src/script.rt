// Runs a script.

ghost use Rattle.std.specs.Prelude.{◌≡◌, ◌⊎◌, [], List, ℕ, IfOk, IfErr, OnOk};
ghost use Rattle.std.specs.Option.{option_map};
ghost use Rattle.std.specs.Io.Buffered.{reader_remaining};
ghost use Rattle.std.specs.Io.KnownBytes.{append_known};
ghost use Rattle.text_output.specs.Sends.{Sends};
ghost use Rattle.commands.specs.Answer.{LineStep, MayWait, answer_text, is_refused};
ghost use Rattle.commands.specs.Line.{meaning};
ghost use Rattle.commands.specs.Script.{Breaks, Ends, Finishes, IsHeldBack, Stops, StopsWriting};
ghost use Rattle.commands.specs.inside.Asked.{happening_asked};
ghost use Rattle.commands.specs.inside.Progress.{Misses, Told};
ghost use Rattle.commands.specs.declared.answer.Answer.{Answer};

use crate::answer::{Answer, answer_asked, is_refused, may_wait, put_answer};
use crate::asked::{Asked, parse_line};
use crate::summary::Summary;
use crate::takes_events::TakesEvents;
use program_parts::Line;
use scripts::{Got, ScriptFault, next_line};
use std::alloc::Global;
use std::io::{BufReader, Read, Write};

/// The maximum number of bytes that one read of the script requests.
const PAGE: usize = 0x10000;

/// Appends the answer to a line to the buffered answers. Sends all buffered answers, unless this
/// answer may be sent later.
fn tell_answer<W: Write>(
    waiting: &mut Line,
    writer: &mut W,
    asked: &Option<Asked<'_>>,
    answer: &Answer,
) -> Result<(), ScriptFault>
    ensures ok { OnOk result (Sends (W.contents writer.old) waiting.old (W.contents writer.new)
        waiting.new (answer_text answer.now)) }
    ensures waits { IfOk result (λ _. (line : List ℕ)
        → option_map happening_asked asked.now ≡ meaning line
        → (waiting.new.waiting ≡ []) ⊎ MayWait line answer.now) }
    ensures err { IfErr result (λ fault. fault ≡ ScriptFault.Write) }
{
    put_answer(waiting, writer, answer)?;
    let waits = may_wait(asked, answer);
    if waits {
        return Ok(());
    }
    waiting.send(writer)?;
    Ok(())
}

/// Answers a whole line, and returns whether it was refused.
fn answer_whole<W: Write, G: TakesEvents>(
    alloc: Global,
    line: &[u8],
    waiting: &mut Line,
    writer: &mut W,
    binders: &mut G,
) -> Result<bool, ScriptFault>
    ensures ok { IfOk result (λ refused. (answer : Answer)
        × LineStep G.step binders.old line.now answer binders.new
        × Sends (W.contents writer.old) waiting.old (W.contents writer.new) waiting.new
        (answer_text answer)
        × (refused ≡ is_refused answer)
        × ((waiting.new.waiting ≡ []) ⊎ MayWait line.now answer)) }
    ensures err { IfErr result (Misses G.step binders.old binders.new
        (append_known (W.contents writer.old) waiting.old.waiting)
        (append_known (W.contents writer.new) waiting.new.waiting) line.now) }
{
    let asked = match parse_line(alloc, line) {
        Ok(asked) => asked,
        Err(_) => return Err(ScriptFault::OutOfMemory),
    };
    let answer = answer_asked(binders, &asked);
    tell_answer(waiting, writer, &asked, &answer)?;
    Ok(is_refused(&answer))
}

/// Answers the lines of a script. At the end, some of the answers may not have been sent yet.
fn run_lines<R: Read, W: Write, G: TakesEvents>(
    alloc: Global,
    pages: &mut BufReader<&mut R>,
    waiting: &mut Line,
    writer: &mut W,
    binders: &mut G,
) -> Result<Summary, ScriptFault>
    requires { waiting.old.waiting ≡ [] }
    ensures ok { IfOk result (λ summary. (held : W)
        × (whole : List (List ℕ)) × (cut : List ℕ) × (answers : List Answer)
        × Ends G.step (record {
          unread = reader_remaining (λ r. R.remaining r.now) pages.old;
          before = W.contents writer.old;
          after = append_known (W.contents writer.new) waiting.new.waiting;
        })
        binders.old binders.new summary whole cut answers
        × Told (W.contents writer.old) (W.contents held) whole answers) }
    ensures err { IfErr result (λ fault. (held : W)
        × (whole : List (List ℕ)) × (part : List ℕ) × (answers : List Answer)
        × Breaks G.step (record {
          unread = reader_remaining (λ r. R.remaining r.now) pages.old;
          before = W.contents writer.old;
          after = append_known (W.contents writer.new) waiting.new.waiting;
        })
        binders.old binders.new fault whole part answers
        × IsHeldBack (W.contents writer.old) (W.contents held) whole answers) }
{
    let mut line = Vec::new(alloc);
    let mut summary = Summary {
        lines: 0,
        refused: 0,
    };
    // Each round answers a line, or returns. The bound is never reached: 2^64 lines would take
    // centuries.
    for _ in 0..u64::MAX {
        match next_line(pages, &mut line, waiting, writer)? {
            Got::Whole => {
                let refused = answer_whole(alloc, &line, waiting, writer, binders)?;
                summary.count(refused);
            }
            Got::Cut => {
                put_answer(waiting, writer, &Answer::CutLine)?;
                summary.count(true);
                return Ok(summary);
            }
            Got::End => return Ok(summary),
        }
    }
    Err(ScriptFault::Read)
}

/// Runs a script. Each line that has a newline gets the text of its reply, or `refused L1 BadLine`
/// if it has none of the forms. A last line without a newline isn't run, and gets `refused L2
/// CutLine`. The script goes on after every refusal. If the reader fails, or memory for a line is
/// refused, the script ends: the replies to all whole lines before it have been written, and the
/// next line has changed nothing. The script is read through a buffer, so more bytes may have been
/// read from the reader than were answered.
///
/// The answer to a line that made a change is written immediately, after the buffered answers. A
/// refusal with S1 (Device) or S2 (Reopen) is also written immediately; after S1, it is unspecified
/// whether the change was made. Other refusals, and answers to listings, binds and lines that have
/// none of the forms, are buffered, up to 2 KiB, as long as whole lines remain in the reader's
/// buffer. All buffered answers are written before the next read from the reader, and at the end.
/// So if the writer fails, the lines whose answers may be missing changed nothing, except the last
/// line, which was applied.
pub fn run_script<R: Read, W: Write, G: TakesEvents>(
    alloc: Global,
    reader: &mut R,
    writer: &mut W,
    binders: &mut G,
) -> Result<Summary, ScriptFault>
    ensures ok { IfOk result (Finishes G.step (record {
      unread = R.remaining reader.old;
      before = W.contents writer.old;
      after = W.contents writer.new;
    })
        binders.old binders.new) }
    ensures err { IfErr result (Stops G.step (record {
      unread = R.remaining reader.old;
      before = W.contents writer.old;
      after = W.contents writer.new;
    })
        binders.old binders.new) }

    // If a write failed, this clause defines the text that the writer had before that write.
    ensures sent { IfErr result (λ fault. fault ≡ ScriptFault.Write
        → (held : W) × StopsWriting G.step (record {
          unread = R.remaining reader.old;
          before = W.contents writer.old;
          after = W.contents writer.new;
        })
        binders.old binders.new (W.contents held)) }
{
    let Ok(mut pages) = BufReader::with_capacity(alloc, PAGE, reader) else {
        return Err(ScriptFault::OutOfMemory);
    };
    let mut waiting = Line::new();
    let ended = run_lines(alloc, &mut pages, &mut waiting, writer, binders);
    waiting.send(writer)?;
    ended
}
