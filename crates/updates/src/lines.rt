// Reads and answers the lines of an update, until a line or a fault ends them.

ghost use Rattle.std.specs.Prelude.{◌≡◌, ◌⊎◌, IfErr, IfOk, MatchResult, bytes_eq, false};
ghost use Rattle.std.specs.Io.Buffered.{reader_remaining};
ghost use Rattle.std.specs.Io.KnownBytes.{append_known};
ghost use Rattle.registry.specs.Updating.{is_refusal};
ghost use Rattle.scripts.specs.Asked.{request_asked};
ghost use Rattle.updates.specs.Lines.{commit_line};
ghost use Rattle.updates.specs.inside.Line.{AskedEnds, LineEnds, MissesAsked, MissesLine};
ghost use Rattle.updates.specs.inside.Lines.{Broken, Ended, Unsent};

use crate::answer::{UpdateRefusal, put_plan};
use program_parts::Line;
use registry::Update;
use requests::{Refusal, Reply};
use scripts::{AskedCommand, Got, ScriptFault, next_line, parse_command};
use sector_disk::Disk;
use std::alloc::Global;
use std::io::{BufReader, Read, Write};

/// The reason why the lines of an update ended.
#[derive(Drop)]
pub(crate) enum Ending {
    /// The line `commit`.
    Commit,
    /// A refusal.
    Refused(UpdateRefusal),
}

/// Returns whether a line is `commit`.
fn asks_commit(line: &[u8]) -> bool
    ensures { result ≡ bytes_eq line.now commit_line }
{
    line == b"commit".as_slice()
}

/// Returns `reply`, or, if it is a refusal, this refusal as an error.
fn accepted(reply: Reply) -> Result<Reply, Refusal>
    ensures { MatchResult result (λ answer. (answer ≡ reply) × (is_refusal answer ≡ false))
        (λ why. reply ≡ Reply.Refused why) }
{
    match reply {
        Reply::Refused(refusal) => Err(refusal),
        reply => Ok(reply),
    }
}

/// Applies the command of a line to the draft and writes the answer, or returns the reason why the
/// line ends the update. Doesn't write a refusal: the caller, which ends the update, writes it.
fn answer_asked<D: Disk, O: Write>(
    asked: &AskedCommand<'_>,
    update: &mut Update<D>,
    waiting: &mut Line,
    output: &mut O,
) -> Result<Option<Ending>, ScriptFault>
    ensures ok { IfOk result (AskedEnds D.facts update.old update.new (request_asked asked.now)
        (append_known (O.contents output.old) waiting.old.waiting)
        (append_known (O.contents output.new) waiting.new.waiting)) }
    ensures err { IfErr result (MissesAsked D.facts update.old update.new
        (request_asked asked.now)) }
{
    let command = asked.as_command();
    match accepted(update.apply(&command)) {
        Ok(reply) => {
            put_plan(waiting, output, &reply)?;
            Ok(None)
        }
        Err(refusal) => Ok(Some(Ending::Refused(UpdateRefusal::Refused(refusal)))),
    }
}

/// Answers a whole line, or returns the reason why the line ends the update.
fn answer_line<D: Disk, O: Write>(
    alloc: Global,
    line: &[u8],
    update: &mut Update<D>,
    waiting: &mut Line,
    output: &mut O,
) -> Result<Option<Ending>, ScriptFault>
    ensures ok { IfOk result (LineEnds D.facts update.old update.new line.now
        (append_known (O.contents output.old) waiting.old.waiting)
        (append_known (O.contents output.new) waiting.new.waiting)) }
    ensures err { IfErr result (MissesLine D.facts update.old update.new line.now
        (append_known (O.contents output.old) waiting.old.waiting)
        (append_known (O.contents output.new) waiting.new.waiting)) }
{
    let commits = asks_commit(line);
    if commits {
        return Ok(Some(Ending::Commit));
    }
    let asked = match parse_command(alloc, line) {
        Ok(asked) => asked,
        Err(_) => return Err(ScriptFault::OutOfMemory),
    };
    match asked {
        Some(asked) => answer_asked(&asked, update, waiting, output),
        None => Ok(Some(Ending::Refused(UpdateRefusal::BadLine))),
    }
}

/// Reads lines and answers each line, until a line or a fault ends them. Some answers may still be
/// in the buffer when the function returns.
fn read_lines<D: Disk, I: Read, O: Write>(
    alloc: Global,
    update: &mut Update<D>,
    pages: &mut BufReader<&mut I>,
    waiting: &mut Line,
    output: &mut O,
) -> Result<Ending, ScriptFault>
    ensures ok { IfOk result (Ended D.facts
        (reader_remaining (λ r. I.remaining r.now) pages.old)
        (append_known (O.contents output.old) waiting.old.waiting)
        (append_known (O.contents output.new) waiting.new.waiting) update.old update.new) }
    ensures err { IfErr result (Broken D.facts
        (reader_remaining (λ r. I.remaining r.now) pages.old)
        (append_known (O.contents output.old) waiting.old.waiting)
        (append_known (O.contents output.new) waiting.new.waiting) update.old update.new) }
{
    let mut line = Vec::new(alloc);
    // Each round answers a line, or returns. The bound is never reached: 2^64 lines would take
    // centuries.
    for _ in 0..u64::MAX {
        match next_line(pages, &mut line, waiting, output)? {
            Got::Whole => {
                if let Some(ending) = answer_line(alloc, &line, update, waiting, output)? {
                    return Ok(ending);
                }
            }
            Got::Cut => return Ok(Ending::Refused(UpdateRefusal::CutLine)),
            Got::End => return Ok(Ending::Refused(UpdateRefusal::NoCommit)),
        }
    }
    Err(ScriptFault::Read)
}

/// Reads lines and answers each line, until a line or a fault ends them, and reads no line after
/// that. All answers have been written when the function returns, unless the output failed. The
/// function can't commit, because the caller keeps the update.
pub(crate) fn answer_lines<D: Disk, I: Read, O: Write>(
    alloc: Global,
    update: &mut Update<D>,
    pages: &mut BufReader<&mut I>,
    output: &mut O,
) -> Result<Ending, ScriptFault>
    // Exactly the answers were written.
    ensures ok { IfOk result (Ended D.facts (reader_remaining (λ r. I.remaining r.now) pages.old)
        (O.contents output.old) (O.contents output.new) update.old update.new) }
    ensures err { IfErr result (λ fault.
        Broken D.facts (reader_remaining (λ r. I.remaining r.now) pages.old)
        (O.contents output.old) (O.contents output.new) update.old update.new fault
        ⊎ Unsent D.facts (reader_remaining (λ r. I.remaining r.now) pages.old)
        update.old update.new fault) }
{
    let mut waiting = Line::new();
    let ended = read_lines(alloc, update, pages, &mut waiting, output);
    waiting.send(output)?;
    ended
}
