// Reads the next line of a script, while answers to earlier lines may be buffered.

ghost use Rattle.std.specs.Prelude.{◌≡◌, ◌≢◌, ◌⊎◌, [], IfOk, IfErr};
ghost use Rattle.std.specs.Io.{StopsAt};
ghost use Rattle.std.specs.Io.Buffered.{reader_buffer, reader_remaining};
ghost use Rattle.std.specs.Io.KnownBytes.{Consumes, append_known};
ghost use Rattle.text_output.specs.Sends.{Sends};
ghost use Rattle.scripts.specs.Reading.{GotLine, HasLine, Unread};

use crate::fault::ScriptFault;
use crate::reading::{Got, read_line, take_line};
use memchr::memchr;
use program_parts::Line;
use std::io::{BufReader, Read, Write};

/// Reads a line, and reads more bytes from the reader. At that point no answer is buffered, so a
/// process that sends one line at a time has received all answers.
fn ask_line<R: Read>(
    pages: &mut BufReader<&mut R>,
    line: &mut Vec<u8>,
    waiting: &Line,
) -> Result<Got, ScriptFault>
    requires { waiting.now.waiting ≡ [] }
    ensures ok { IfOk result (GotLine (reader_remaining (λ r. R.remaining r.now) pages.old)
        (reader_remaining (λ r. R.remaining r.now) pages.new) line.new.items) }
    ensures read { IfErr result (λ _. Consumes (reader_remaining (λ r. R.remaining r.now) pages.old)
        (reader_remaining (λ r. R.remaining r.now) pages.new) line.new.items) }
    ensures part { IfErr result (λ _. StopsAt line.new.items 10) }
    ensures fault { IfErr result (λ fault. fault ≢ ScriptFault.Write) }
{
    let _ = waiting;
    read_line(pages, line)
}

/// Reads the next line. If the bytes that were read before contain no whole line, sends all
/// buffered answers before it reads from the reader.
pub fn next_line<R: Read, W: Write>(
    pages: &mut BufReader<&mut R>,
    line: &mut Vec<u8>,
    waiting: &mut Line,
    writer: &mut W,
) -> Result<Got, ScriptFault>
    ensures ok { IfOk result (GotLine (reader_remaining (λ r. R.remaining r.now) pages.old)
        (reader_remaining (λ r. R.remaining r.now) pages.new) line.new.items) }
    ensures kept { IfOk result (λ _. Sends (W.contents writer.old) waiting.old
        (W.contents writer.new) waiting.new []) }
    ensures err { IfErr result (Unread (reader_remaining (λ r. R.remaining r.now) pages.old)
        (reader_remaining (λ r. R.remaining r.now) pages.new)
        (append_known (W.contents writer.old) waiting.old.waiting)
        (append_known (W.contents writer.new) waiting.new.waiting) line.new.items) }
    // If the call has read from the reader, no answer is buffered.
    ensures asked { IfOk result
        (λ _. HasLine (reader_buffer pages.old) ⊎ (waiting.new.waiting ≡ [])) }
{
    if let Some(end) = memchr(b'\n', pages.buffer()) {
        return take_line(pages, end, line);
    }
    waiting.send(writer)?;
    ask_line(pages, line, waiting)
}
