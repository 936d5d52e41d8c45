// Writes the digests of the libraries.

ghost use Rattle.std.specs.Prelude.{◌≡◌, List, IfSome, OnOk, length, sum_by, true};
ghost use Rattle.std.specs.Io.KnownBytes.{Appends};
ghost use Rattle.sector_disk.specs.Disk.{AreCallsAtMost};
ghost use Rattle.states.specs.State.{Library, State};
ghost use Rattle.store.specs.IsRead.{IsRead, file_sectors};
ghost use Rattle.store.specs.Opened.{IsAt};
ghost use Rattle.program_parts.specs.Said.{AppendsFront};
ghost use Rattle.text_output.specs.Sends.{Sends};
ghost use Rattle.tool_commands.specs.AnyDisk.{DigestTells};
ghost use Rattle.tool_commands.specs.Digest.{TellsDigests, are_read, digest_status, digests_text};
ghost use Rattle.tool_commands.specs.Digest.{unread_text};
ghost use Rattle.tool_commands.specs.Ends.{DigestEnds};
ghost use Rattle.tool_commands.specs.inside.Listed.{Lists};
ghost use Rattle.tool_commands.specs.inside.Sums.{stream_text};

use crate::digest_line::put_stream_line;
use crate::finding::Line;
use crate::stream::Stream;
use contents::Contents;
use program_parts::{Status, say};
use sector_disk::Disk;
use std::alloc::Global;
use std::io::Write;
use store::{Store, StoreRefusal};
use text_output::WriteFault;
use tool_parts::{cannot_write, say_refusal};

/// Appends the lines for `stream` to the buffered text, in the order of the libraries.
fn put_stream<D: Disk, W: Write>(
    store: &Store<D>,
    digests: &[Option<[u8; 32]>],
    stream: Stream,
    line: &mut Line,
    out: &mut W,
) -> Result<(), WriteFault>
    requires { length digests.now ≡ length store.now.entries }
    ensures { (libraries : List Library) → Lists D.facts store.now libraries → OnOk result
        (Sends (W.contents out.old) line.old (W.contents out.new) line.new
        (stream_text stream libraries digests.now)) }
{
    for position in 0..store.count() {
        put_stream_line(stream, line, out, store.name(position), &digests[position])?;
    }
    Ok(())
}

/// Writes the lines for `stream` to `out`.
fn write_stream<D: Disk, W: Write>(
    store: &Store<D>,
    digests: &[Option<[u8; 32]>],
    stream: Stream,
    out: &mut W,
) -> Result<(), WriteFault>
    requires { length digests.now ≡ length store.now.entries }
    ensures { (libraries : List Library) → Lists D.facts store.now libraries → OnOk result
        (Appends (W.contents out.old) (W.contents out.new)
        (stream_text stream libraries digests.now)) }
{
    let mut line = Line::new();
    put_stream(store, digests, stream, &mut line, out)?;
    line.send(out)
}

/// Returns whether each library could be read. If so, each library has a digest.
fn are_read(digests: &[Option<[u8; 32]>]) -> bool
    ensures { result ≡ are_read digests.now }
{
    digests.iter().all(|digest| digest.is_some())
}

/// Returns the lines for the libraries that can't be read, or `None` if memory for the lines is
/// refused.
fn unread_lines<D: Disk>(
    store: &Store<D>,
    alloc: Global,
    digests: &[Option<[u8; 32]>],
) -> Option<Vec<u8>>
    requires { length digests.now ≡ length store.now.entries }
    ensures { (libraries : List Library) → Lists D.facts store.now libraries
        → IfSome result (λ lines. lines.items ≡ unread_text libraries digests.now) }
{
    let mut lines = Vec::new(alloc);
    match write_stream(store, digests, Stream::Errors, &mut lines) {
        Ok(()) => Some(lines),
        Err(_) => None,
    }
}

/// Reports the libraries that can't be read, if there is memory for the lines.
fn say_unread<D: Disk, E: Write>(
    store: &Store<D>,
    alloc: Global,
    digests: &[Option<[u8; 32]>],
    errors: &mut E,
)
    requires { length digests.now ≡ length store.now.entries }
    ensures { (libraries : List Library) → Lists D.facts store.now libraries
        → AppendsFront (E.contents errors.old) (E.contents errors.new)
        (unread_text libraries digests.now) }
{
    match unread_lines(store, alloc, digests) {
        Some(lines) => say(errors, &lines),
        None => {}
    }
}

/// Reports the libraries that can't be read, if there are any. Returns the status.
fn end_digests<D: Disk, E: Write>(
    store: &Store<D>,
    alloc: Global,
    digests: &[Option<[u8; 32]>],
    errors: &mut E,
) -> Status
    requires { length digests.now ≡ length store.now.entries }
    ensures status { result ≡ digest_status digests.now }
    ensures said { (libraries : List Library) → Lists D.facts store.now libraries
        → AppendsFront (E.contents errors.old) (E.contents errors.new)
        (unread_text libraries digests.now) }
    ensures silent { are_read digests.now ≡ true → errors.new ≡ errors.old }
{
    if are_read(digests) {
        return Status::Done;
    }
    say_unread(store, alloc, digests, errors);
    Status::Refused
}

/// Writes the line for each library that could be read, and reports the other libraries on standard
/// error. If the output fails, reports only that.
fn tell_digests<D: Disk, O: Write, E: Write>(
    store: &Store<D>,
    alloc: Global,
    digests: &[Option<[u8; 32]>],
    output: &mut O,
    errors: &mut E,
) -> Status
    requires { length digests.now ≡ length store.now.entries }
    ensures { (libraries : List Library) → Lists D.facts store.now libraries
        → TellsDigests libraries digests.now (record {
          before = O.contents output.old;
          after = O.contents output.new;
          errors_before = E.contents errors.old;
          errors_after = E.contents errors.new;
        }) result }
{
    match write_stream(store, digests, Stream::Output, output) {
        Ok(()) => end_digests(store, alloc, digests, errors),
        Err(_) => cannot_write(errors),
    }
}

/// Reads each library, and then writes the digests in the order of the libraries. The lines have
/// the format of GNU sha256sum. A library that can't be read has no line on the output, but one on
/// standard error. Doesn't test whether the files are libraries.
pub fn run_digest<D: Disk, O: Write, E: Write>(
    contents: &mut Contents<D>,
    alloc: Global,
    output: &mut O,
    errors: &mut E,
) -> Status
    ensures read { IsRead D.facts contents.old contents.new }
    ensures ends { (s : State) → IsAt D.facts contents.old s
        → DigestEnds (D.facts contents.old.disk) (D.facts contents.new.disk) s (record {
          before = O.contents output.old;
          after = O.contents output.new;
          errors_before = E.contents errors.old;
          errors_after = E.contents errors.new;
        }) result }

    // The clauses from here on hold on any disk, honest or not.
    ensures told { DigestTells (D.facts contents.old.disk) (D.facts contents.new.disk) (record {
      before = O.contents output.old;
      after = O.contents output.new;
      errors_before = E.contents errors.old;
      errors_after = E.contents errors.new;
    }) result }

    // The form makes at most one call of the disk for each sector of each library.
    ensures calls { AreCallsAtMost (sum_by file_sectors contents.old.entries)
        (D.facts contents.old.disk) (D.facts contents.new.disk) }
{
    match contents.digests(alloc) {
        Ok(digests) => tell_digests(contents.store(), alloc, &digests, output, errors),
        Err(_) => say_refusal(alloc, StoreRefusal::OutOfMemory, errors),
    }
}
