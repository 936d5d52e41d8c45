// The reason why a line isn't run.

ghost use Rattle.std.specs.Prelude.{◌≡◌, true, OnOk, OnErr};
ghost use Rattle.text_output.specs.Sends.{Sends};
ghost use Rattle.scripts.specs.Line.{line_refusal_text};

use program_parts::Line;
use std::io::Write;
use text_output::WriteFault;

/// The reason why a line isn't run.
#[derive(Clone, Copy)]
pub enum LineRefusal {
    /// L1: the line has none of the forms.
    BadLine,
    /// L2: the line is the last one and has no newline.
    CutLine,
}

/// Appends the text of a refusal to the buffered answers.
pub fn put_line_refusal<W: Write>(
    waiting: &mut Line,
    out: &mut W,
    refusal: LineRefusal,
) -> Result<(), WriteFault>
    ensures ok { OnOk result (Sends
        (W.contents out.old) waiting.old (W.contents out.new) waiting.new
        (line_refusal_text refusal)) }
    ensures err { OnErr result (waiting.new.failed ≡ true) }
{
    match refusal {
        LineRefusal::BadLine => waiting.put(out, b"refused L1 BadLine\n"),
        LineRefusal::CutLine => waiting.put(out, b"refused L2 CutLine\n"),
    }
}
