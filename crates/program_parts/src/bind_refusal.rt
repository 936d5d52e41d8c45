// Appends or writes the line that answers a refused bind.

ghost use Rattle.std.specs.Prelude.{◌≡◌, ◌++◌, codes, true, OnOk, OnErr};
ghost use Rattle.std.specs.Io.KnownBytes.{Appends};
ghost use Rattle.text_output.specs.Sends.{Sends};
ghost use Rattle.program_parts.specs.Refusal.{file_refusal_text, named_text, refusal_text};

use crate::refusal::{Line, put_disk_refusal, put_file_refusal};
use hash_check::FileRefusal;
use image::BindRefusal;
use std::io::Write;
use store::StoreRefusal;
use text_output::WriteFault;

/// Appends the line of a file's refusal: `front`, and then the refusal.
pub(crate) fn put_file_line<W: Write>(
    line: &mut Line,
    out: &mut W,
    front: &[u8],
    refusal: FileRefusal,
) -> Result<(), WriteFault>
    ensures ok { OnOk result (Sends (W.contents out.old) line.old (W.contents out.new) line.new
        (front.now ++ file_refusal_text refusal ++ codes "\n")) }
    ensures err { OnErr result (line.new.failed ≡ true) }
{
    line.put(out, front)?;
    put_file_refusal(line, out, refusal)?;
    line.put(out, b"\n")
}

/// Appends the line of a refusal: `head`; `first`, the name of an object; and `second`, the name
/// that the object lacks.
fn put_named<W: Write>(
    line: &mut Line,
    out: &mut W,
    head: &[u8],
    first: &[u8],
    second: &[u8],
) -> Result<(), WriteFault>
    ensures ok { OnOk result (Sends (W.contents out.old) line.old (W.contents out.new) line.new
        (named_text head.now first.now second.now)) }
    ensures err { OnErr result (line.new.failed ≡ true) }
{
    line.put(out, head)?;
    line.put_name(out, first)?;
    line.put(out, b" ")?;
    line.put_name(out, second)?;
    line.put(out, b"\n")
}

/// Appends the line of the answer to a bind that is refused.
pub(crate) fn put_refusal<W: Write>(
    line: &mut Line,
    out: &mut W,
    refusal: &BindRefusal,
) -> Result<(), WriteFault>
    ensures ok { OnOk result (Sends (W.contents out.old) line.old (W.contents out.new) line.new
        (refusal_text refusal.now)) }
    ensures err { OnErr result (line.new.failed ≡ true) }
{
    match refusal {
        BindRefusal::Program(refusal) => put_file_line(line, out, b"refused B1 ", *refusal),
        BindRefusal::BadBase => line.put(out, b"refused B2 BadBase\n"),
        BindRefusal::Missing { needer, name } => put_named(
            line,
            out,
            b"refused B3 Missing ",
            needer.as_bytes(),
            name.as_bytes(),
        ),
        BindRefusal::NoRoom => line.put(out, b"refused B4 NoRoom\n"),
        BindRefusal::Undefined { object, symbol } => put_named(
            line,
            out,
            b"refused B5 Undefined ",
            object.as_bytes(),
            symbol.as_bytes(),
        ),
        BindRefusal::OutOfMemory => put_disk_refusal(line, out, StoreRefusal::OutOfMemory),
    }
}

/// Writes the line of the answer to a bind that is refused. Makes one write, unless the names are
/// longer than the buffer of a line.
pub fn write_refusal<W: Write>(out: &mut W, refusal: &BindRefusal) -> Result<(), WriteFault>
    ensures { OnOk result
        (Appends (W.contents out.old) (W.contents out.new) (refusal_text refusal.now)) }
{
    let mut line = Line::new();
    put_refusal(&mut line, out, refusal)?;
    line.send(out)
}
