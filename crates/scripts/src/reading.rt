// Reads one line of a script.

ghost use Rattle.std.specs.Prelude.{◌≡◌, ◌≢◌, ◌==◌, ℕ, List, Option, Some, length};
ghost use Rattle.std.specs.Prelude.{if◌then◌else◌, IfOk, IfErr, OnErr};
ghost use Rattle.std.specs.Io.{StopsAt};
ghost use Rattle.std.specs.Io.Buffered.{reader_buffer, reader_remaining};
ghost use Rattle.std.specs.Io.KnownBytes.{Consumes, Keeps};
ghost use Rattle.memchr.specs.Find.{IsFirstByte, is_byte};
ghost use Rattle.scripts.specs.Line.{IsLine};
ghost use Rattle.scripts.specs.Reading.{GotLine};
ghost use Rattle.scripts.specs.inside.Part.{GotPart};

use crate::fault::ScriptFault;
use memchr::memchr;
use std::io::{BufRead, BufReader, Error, ErrorKind, Read};

/// The result of one read of a line.
pub enum Got {
    /// A line that had a newline, without the newline.
    Whole,
    /// The bytes after the last newline.
    Cut,
    /// Nothing, at the end of the input.
    End,
}

/// Returns the fault for an error of a read.
fn fault_of(error: &Error) -> ScriptFault
    ensures { result ≢ ScriptFault.Write }
{
    if error.kind() == ErrorKind::OutOfMemory {
        ScriptFault::OutOfMemory
    } else {
        ScriptFault::Read
    }
}

/// Returns the result of a read that has reached the end of the input. `line` has the bytes after
/// the last newline.
fn last_part(line: &[u8]) -> Got
    ensures { result ≡ (if length line.now == 0 then Got.End else Got.Cut) }
{
    if line.is_empty() { Got::End } else { Got::Cut }
}

/// Appends the bytes that the reader has ready to a part of a line, up to the newline. Returns the
/// result of the read if the newline or the end of the input is reached, and otherwise `None`.
/// After an error, nothing has changed.
fn read_part<R: BufRead>(reader: &mut R, line: &mut Vec<u8>) -> Result<Option<Got>, ScriptFault>
    requires { IsLine line.old.items }
    ensures ok { IfOk result (λ got. (before : Option (List ℕ))
        → Consumes before (R.remaining reader.old) line.old.items
        → GotPart before (R.remaining reader.new) line.new.items got) }
    ensures kept { OnErr result (Keeps (R.remaining reader.old) (R.remaining reader.new)) }
    ensures same { OnErr result (line.new.items ≡ line.old.items) }
    ensures fault { IfErr result (λ fault. fault ≢ ScriptFault.Write) }
{
    let bytes = match reader.fill_buf() {
        Ok(bytes) => bytes,
        Err(e) if e.kind() == ErrorKind::Interrupted => return Ok(None),
        Err(e) => return Err(fault_of(&e)),
    };
    if bytes.is_empty() {
        return Ok(Some(last_part(line)));
    }
    match memchr(b'\n', bytes) {
        Some(end) => {
            line.extend_from_slice(&bytes[..end])?;
            reader.consume(end + 1);
            Ok(Some(Got::Whole))
        }
        None => {
            let end = bytes.len();
            line.extend_from_slice(bytes)?;
            reader.consume(end);
            Ok(None)
        }
    }
}

/// Reads a line into `line`, and overwrites its previous contents.
pub(crate) fn read_line<R: BufRead>(reader: &mut R, line: &mut Vec<u8>) -> Result<Got, ScriptFault>
    ensures ok { IfOk result
        (GotLine (R.remaining reader.old) (R.remaining reader.new) line.new.items) }
    ensures read { IfErr result
        (λ _. Consumes (R.remaining reader.old) (R.remaining reader.new) line.new.items) }
    ensures part { IfErr result (λ _. StopsAt line.new.items 10) }
    ensures fault { IfErr result (λ fault. fault ≢ ScriptFault.Write) }
{
    line.clear();
    // Each round adds a part to the line, returns, or was interrupted by a signal. The bound is
    // never reached: 2^64 calls would take centuries.
    for _ in 0..u64::MAX {
        if let Some(got) = read_part(reader, line)? {
            return Ok(got);
        }
    }
    Err(ScriptFault::Read)
}

/// Replaces the contents of `line` by the line whose newline is at position `end` of the bytes that
/// were read before. Reads nothing from the reader.
pub(crate) fn take_line<R: Read>(
    pages: &mut BufReader<&mut R>,
    end: usize,
    line: &mut Vec<u8>,
) -> Result<Got, ScriptFault>
    requires { IsFirstByte (is_byte 10) (reader_buffer pages.old) (Some end) }
    ensures ok { IfOk result (GotLine (reader_remaining (λ r. R.remaining r.now) pages.old)
        (reader_remaining (λ r. R.remaining r.now) pages.new) line.new.items) }
    ensures read { IfErr result (λ _. Consumes (reader_remaining (λ r. R.remaining r.now) pages.old)
        (reader_remaining (λ r. R.remaining r.now) pages.new) line.new.items) }
    ensures part { IfErr result (λ _. StopsAt line.new.items 10) }
    ensures fault { IfErr result (λ fault. fault ≢ ScriptFault.Write) }
{
    line.clear();
    line.extend_from_slice(&pages.buffer()[..end])?;
    pages.consume(end + 1);
    Ok(Got::Whole)
}
