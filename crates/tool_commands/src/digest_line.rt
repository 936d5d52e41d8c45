// Appends the line for a library's digest to a buffered text, in the format of GNU sha256sum.

ghost use Rattle.std.specs.Prelude.{◌≡◌, OnOk};
ghost use Rattle.std.specs.List.{flat_map, list_any};
ghost use Rattle.hex.specs.Hex.{encode_lower};
ghost use Rattle.text_output.specs.Sends.{Sends};
ghost use Rattle.tool_commands.specs.Digest.{escape_mark, escaped_byte, is_escaped, sum_line};
ghost use Rattle.tool_commands.specs.inside.Sums.{stream_line};

use crate::finding::{Line, put_around};
use crate::stream::Stream;
use std::io::Write;
use text_output::WriteFault;

/// The number of hexadecimal digits of a digest.
const DIGITS: usize = 64;

/// Returns whether a line has an escape instead of `byte`.
fn is_escaped(byte: u8) -> bool
    ensures { result ≡ is_escaped byte }
{
    byte == b'\\' || byte == b'\n' || byte == b'\r'
}

/// Returns whether `name` has a byte that is escaped.
fn has_escape(name: &[u8]) -> bool
    ensures { result ≡ list_any is_escaped name.now }
{
    name.iter().any(|byte| is_escaped(*byte))
}

/// Returns the beginning of the line for `name`: a backslash if a byte of `name` is escaped, and
/// otherwise no bytes.
fn mark_of(name: &[u8]) -> &'static [u8]
    ensures { result.now ≡ escape_mark name.now }
{
    if has_escape(name) { b"\\" } else { b"" }
}

/// Appends the digits of a digest to the buffered text.
fn put_digits<W: Write>(line: &mut Line, out: &mut W, digest: &[u8; 32]) -> Result<(), WriteFault>
    ensures { OnOk result (Sends (W.contents out.old) line.old (W.contents out.new) line.new
        (encode_lower digest.now)) }
{
    let mut digits = [0u8; DIGITS];
    let _ = hex::encode_to_slice(digest, &mut digits);
    line.put(out, &digits)
}

/// Appends a byte of a name, or its escape, to the buffered text.
fn put_escaped_byte<W: Write>(line: &mut Line, out: &mut W, byte: u8) -> Result<(), WriteFault>
    ensures { OnOk result (Sends (W.contents out.old) line.old (W.contents out.new) line.new
        (escaped_byte byte)) }
{
    match byte {
        b'\\' => line.put(out, b"\\\\"),
        b'\n' => line.put(out, b"\\n"),
        b'\r' => line.put(out, b"\\r"),
        _ => line.put(out, &[byte]),
    }
}

/// Appends a name with its escapes to the buffered text.
fn put_escaped<W: Write>(line: &mut Line, out: &mut W, name: &[u8]) -> Result<(), WriteFault>
    ensures { OnOk result (Sends (W.contents out.old) line.old (W.contents out.new) line.new
        (flat_map escaped_byte name.now)) }
{
    for byte in name {
        put_escaped_byte(line, out, *byte)?;
    }
    Ok(())
}

/// Appends the line for a name and its digest to the buffered text.
fn put_sum<W: Write>(
    line: &mut Line,
    out: &mut W,
    name: &[u8],
    digest: &[u8; 32],
) -> Result<(), WriteFault>
    ensures { OnOk result (Sends (W.contents out.old) line.old (W.contents out.new) line.new
        (sum_line name.now digest.now)) }
{
    line.put(out, mark_of(name))?;
    put_digits(line, out, digest)?;
    line.put(out, b"  ")?;
    put_escaped(line, out, name)?;
    line.put(out, b"\n")
}

/// Appends the line for `stream` and the library `name` to the buffered text. The output has a line
/// only for a library that could be read, and standard error only for a library that couldn't be
/// read.
pub(crate) fn put_stream_line<W: Write>(
    stream: Stream,
    line: &mut Line,
    out: &mut W,
    name: &[u8],
    digest: &Option<[u8; 32]>,
) -> Result<(), WriteFault>
    ensures { OnOk result (Sends (W.contents out.old) line.old (W.contents out.new) line.new
        (stream_line stream name.now digest.now)) }
{
    match (stream, digest) {
        (Stream::Output, Some(digest)) => put_sum(line, out, name, digest),
        (Stream::Errors, None) => {
            put_around(line, out, b"rlibreg-tool: unreadable ", name, b"\n")
        }
        _ => Ok(()),
    }
}
