// Appends the line that reports the finding for a library to a buffered text.

ghost use Rattle.std.specs.Prelude.{◌++◌, codes, OnOk};
ghost use Rattle.std.specs.Fmt.{decimal};
ghost use Rattle.text_output.specs.Name.{name_text};
ghost use Rattle.text_output.specs.Sends.{Sends};
ghost use Rattle.program_parts.specs.Refusal.{file_refusal_text};
ghost use Rattle.tool_commands.specs.Check.{finding_line};

use contents::Finding;
use hash_check::FileRefusal;
use program_parts::put_file_refusal;
use std::io::Write;
use text_output::{LINE, OutputBuffer, WriteFault};

/// The buffer of a line that goes to a writer.
pub(crate) type Line = OutputBuffer<LINE>;

/// Appends `front`, the name `name` and `back` to the buffered text.
pub(crate) fn put_around<W: Write>(
    line: &mut Line,
    out: &mut W,
    front: &[u8],
    name: &[u8],
    back: &[u8],
) -> Result<(), WriteFault>
    ensures { OnOk result (Sends (W.contents out.old) line.old (W.contents out.new) line.new
        (front.now ++ name_text name.now ++ back.now)) }
{
    line.put(out, front)?;
    line.put_name(out, name)?;
    line.put(out, back)
}

/// Appends to the buffered text the line for a sound library.
fn put_sound<W: Write>(
    line: &mut Line,
    out: &mut W,
    name: &[u8],
    length: u32,
) -> Result<(), WriteFault>
    ensures { OnOk result (Sends (W.contents out.old) line.old (W.contents out.new) line.new
        (codes "ok " ++ name_text name.now ++ codes " " ++ decimal length ++ codes "\n")) }
{
    line.put(out, b"ok ")?;
    line.put_name(out, name)?;
    line.put(out, b" ")?;
    line.put_decimal(out, u64::from(length))?;
    line.put(out, b"\n")?;
    Ok(())
}

/// Appends to the buffered text the line for a library that a test refuses.
fn put_refused<W: Write>(
    line: &mut Line,
    out: &mut W,
    name: &[u8],
    refusal: FileRefusal,
) -> Result<(), WriteFault>
    ensures { OnOk result (Sends (W.contents out.old) line.old (W.contents out.new) line.new
        (codes "damaged " ++ name_text name.now ++ codes " " ++ file_refusal_text refusal
        ++ codes "\n")) }
{
    line.put(out, b"damaged ")?;
    line.put_name(out, name)?;
    line.put(out, b" ")?;
    put_file_refusal(line, out, refusal)?;
    line.put(out, b"\n")?;
    Ok(())
}

/// Appends to the buffered text the line that reports `finding` for a library with the name `name`
/// and `length` bytes.
pub(crate) fn put_finding<W: Write>(
    line: &mut Line,
    out: &mut W,
    finding: Finding,
    name: &[u8],
    length: u32,
) -> Result<(), WriteFault>
    ensures { OnOk result (Sends (W.contents out.old) line.old (W.contents out.new) line.new
        (finding_line name.now length finding)) }
{
    match finding {
        Finding::Sound => put_sound(line, out, name, length),
        Finding::Refused(refusal) => put_refused(line, out, name, refusal),
        Finding::OtherName => put_around(line, out, b"damaged ", name, b" OtherName\n"),
        Finding::Unreadable => put_around(line, out, b"unreadable ", name, b"\n"),
    }
}
