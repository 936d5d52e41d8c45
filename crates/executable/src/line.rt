// Writes the line of a refusal.

ghost use Rattle.std.specs.Prelude.{OnOk, codes};
ghost use Rattle.std.specs.Io.KnownBytes.{Appends};
ghost use Rattle.text_output.specs.Sends.{Sends};
ghost use Rattle.executable.specs.Outcome.{executable_refusal_text, object_text};

use crate::refusal::ExecutableRefusal;
use names::Name;
use std::io::Write;
use text_output::{LINE, OutputBuffer, WriteFault};

/// The buffer for a line.
type Line = OutputBuffer<LINE>;

/// Appends the line of a refusal that names an object to the buffered text: `says`, and then the
/// object's name.
fn put_object<W: Write>(
    line: &mut Line,
    out: &mut W,
    says: &[u8],
    name: &Name,
) -> Result<(), WriteFault>
    ensures { OnOk result (Sends (W.contents out.old) line.old (W.contents out.new) line.new
        (object_text says.now name.now)) }
{
    line.put(out, says)?;
    line.put_name(out, name.as_bytes())?;
    line.put(out, b"\n")
}

/// Appends the line of a refusal, such as `refused NoEntry`, to the buffered text.
pub fn put_executable_refusal<W: Write>(
    line: &mut OutputBuffer<LINE>,
    out: &mut W,
    refusal: &ExecutableRefusal,
) -> Result<(), WriteFault>
    ensures { OnOk result (Sends (W.contents out.old) line.old (W.contents out.new) line.new
        (executable_refusal_text refusal.now)) }
{
    match refusal {
        ExecutableRefusal::NoEntry => line.put(out, b"refused NoEntry\n"),
        ExecutableRefusal::StaticPie => line.put(out, b"refused StaticPie\n"),
        ExecutableRefusal::PreInitializers => line.put(out, b"refused PreInitializers\n"),
        ExecutableRefusal::Initializers { name } => {
            put_object(line, out, b"refused Initializers ", name)
        }
        ExecutableRefusal::Finalizers { name } => {
            put_object(line, out, b"refused Finalizers ", name)
        }
        ExecutableRefusal::TooManyHeaders => line.put(out, b"refused TooManyHeaders\n"),
        ExecutableRefusal::WritableCode { name } => {
            put_object(line, out, b"refused WritableCode ", name)
        }
        ExecutableRefusal::NoPages => line.put(out, b"refused NoPages\n"),
        ExecutableRefusal::OutOfMemory => line.put(out, b"refused S11 OutOfMemory\n"),
    }
}

/// Writes the line of a refusal in one write.
pub fn write_executable_refusal<W: Write>(
    out: &mut W,
    refusal: &ExecutableRefusal,
) -> Result<(), WriteFault>
    ensures { OnOk result (Appends (W.contents out.old) (W.contents out.new)
        (executable_refusal_text refusal.now)) }
{
    let mut line = Line::new();
    put_executable_refusal(&mut line, out, refusal)?;
    line.send(out)
}
