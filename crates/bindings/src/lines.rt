// Writes the lines of the texts.

ghost use Rattle.std.specs.Prelude.{◌≡◌, true, OnOk, OnErr};
ghost use Rattle.text_output.specs.Sends.{Sends};
ghost use Rattle.bindings.specs.Bindings.{binds_line, name_line, names_line, object_line};

use std::io::Write;
use text_output::{OutputBuffer, WriteFault};

/// The buffer for the text. The writer receives it in pieces of 64 KiB.
pub(crate) type TextBuffer = OutputBuffer<65536>;

/// Writes a line that begins with `says` and ends with a name.
pub(crate) fn put_name_line<W: Write>(
    out: &mut W,
    buffer: &mut TextBuffer,
    says: &[u8],
    name: &[u8],
) -> Result<(), WriteFault>
    ensures { OnOk result (Sends (W.contents out.old) buffer.old (W.contents out.new) buffer.new
        (name_line says.now name.now)) }
{
    buffer.put(out, says)?;
    buffer.put_name(out, name)?;
    buffer.put(out, b"\n")
}

/// Writes a line that begins with `says` and ends with two names.
pub(crate) fn put_names_line<W: Write>(
    out: &mut W,
    buffer: &mut TextBuffer,
    says: &[u8],
    name: &[u8],
    other: &[u8],
) -> Result<(), WriteFault>
    ensures { OnOk result (Sends (W.contents out.old) buffer.old (W.contents out.new) buffer.new
        (names_line says.now name.now other.now)) }
{
    buffer.put(out, says)?;
    buffer.put_name(out, name)?;
    put_name_line(out, buffer, b" ", other)
}

/// Writes the line of an object, with its base and its name.
pub(crate) fn put_object_line<W: Write>(
    out: &mut W,
    buffer: &mut TextBuffer,
    base: u64,
    name: &[u8],
) -> Result<(), WriteFault>
    ensures { OnOk result (Sends (W.contents out.old) buffer.old (W.contents out.new) buffer.new
        (object_line base name.now)) }
{
    buffer.put(out, b"object 0x")?;
    buffer.put_address(out, base)?;
    put_name_line(out, buffer, b" ", name)
}

/// Writes the line of a symbol that is bound, with its name, its value, and the object that defines
/// it.
pub(crate) fn put_binds_line<W: Write>(
    out: &mut W,
    buffer: &mut TextBuffer,
    symbol: &[u8],
    value: u64,
    object: &[u8],
) -> Result<(), WriteFault>
    ensures { OnOk result (Sends (W.contents out.old) buffer.old (W.contents out.new) buffer.new
        (binds_line symbol.now value object.now)) }
{
    buffer.put(out, b"binds ")?;
    buffer.put_name(out, symbol)?;
    buffer.put(out, b" 0x")?;
    buffer.put_address(out, value)?;
    put_name_line(out, buffer, b" ", object)
}
