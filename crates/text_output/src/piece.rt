// Lines that are written to a writer in pieces. Each piece except the last one ends within a line.

ghost use Rattle.std.specs.Prelude.{◌≡◌, ◌⊎◌, ◌++◌, ◌<◌, ◌≤◌, [], codes, length};
ghost use Rattle.std.specs.Prelude.{OnErr, OnOk, false, true};
ghost use Rattle.std.specs.Io.KnownBytes.{Appends};
ghost use Rattle.text_output.specs.Sends.{Sends};
ghost use Rattle.text_output.specs.Pieces.{EndsWithinLine, GetsFrontPiece, IsFrontPiece};
ghost use Rattle.text_output.specs.Pieces.{IsWithinLine};

use crate::buffer::OutputBuffer;
use crate::fault::WriteFault;
use std::io::Write;
use std::marker::Model;

/// The maximum size of a piece in bytes: a pipe accepts a piece of this size as a whole or not at
/// all.
const PIECE_BYTES: usize = 4096;

/// The maximum length in bytes of a text that is added with one call.
pub const LONGEST: usize = 256;

/// The buffer for a piece.
type Piece = OutputBuffer<PIECE_BYTES>;

/// Lines that are written to a writer in pieces of at most 4,096 bytes. Each piece except the last
/// one ends within a line. So if a text ends after any other piece, a reader sees that the text is
/// incomplete. In contracts, `waiting` is the waiting bytes, including the newline of a line that
/// has ended.
#[derive(Drop)]
pub struct PieceBuffer {
    piece: Piece,
    line_is_ended: bool,
}

impl Model for PieceBuffer {
    ghost use Rattle.std.specs.Prelude.{◌++◌, ◌<◌, codes, [], if◌then◌else◌, length};
    ghost use Rattle.text_output.specs.Sends.{Buffered};
    ghost use Rattle.text_output.specs.Pieces.{EndsWithinLine, most_piece};

    ghost Value = { Buffered };

    ghost view = { λ s. record {
      waiting = s.piece.waiting ++ (if s.line_is_ended then codes "\n" else []);
      failed = s.piece.failed;
    } };

    ghost invariant = { λ s. EndsWithinLine s.piece.waiting
        × (length s.piece.waiting < most_piece) };
}

/// Writes a piece that isn't the last one to the writer, with one call of `write_all`.
fn write_piece<W: Write>(piece: &mut Piece, out: &mut W) -> Result<(), WriteFault>
    requires { IsFrontPiece piece.old.waiting }
    ensures ok { OnOk result (Appends (W.contents out.old) (W.contents out.new)
        piece.old.waiting) }
    ensures given { OnOk result (piece.new ≡ record { waiting = []; failed = false }) }
    ensures err { OnErr result
        (piece.new ≡ record { waiting = piece.old.waiting; failed = true }) }
{
    piece.send(out)
}

impl PieceBuffer {
    /// Makes a buffer without waiting bytes.
    pub fn new() -> Self
        ensures { result.waiting ≡ [] }
    {
        PieceBuffer {
            piece: Piece::new(),
            line_is_ended: false,
        }
    }

    /// Adds a part of a line to the waiting bytes. If the buffer has no room for the part and a
    /// newline, first writes the waiting bytes to the writer, as one piece.
    pub fn put<W: Write>(&mut self, out: &mut W, text: &[u8]) -> Result<(), WriteFault>
        requires short { length text.now ≤ LONGEST }
        requires line { IsWithinLine text.now }
        ensures ok { OnOk result (Sends (W.contents out.old) self.old (W.contents out.new) self.new
            text.now) }
        ensures within { OnOk result ((EndsWithinLine self.old.waiting ⊎ (0 < length text.now))
            → EndsWithinLine self.new.waiting) }

        // The writer receives nothing, or a piece that ends within a line.
        ensures piece { OnOk result
            (GetsFrontPiece (W.contents out.old) (W.contents out.new)) }
    {
        if text.is_empty() {
            return Ok(());
        }
        if self.piece.room() <= text.len() + 1 {
            write_piece(&mut self.piece, out)?;
        }
        if self.line_is_ended {
            self.piece.append(b"\n");
            self.line_is_ended = false;
        }
        self.piece.append(text);
        Ok(())
    }

    /// Adds a newline to the waiting bytes. The newline isn't written until the next line begins or
    /// the text ends.
    pub fn end_line(&mut self)
        requires { EndsWithinLine self.old.waiting }
        ensures { self.new.waiting ≡ self.old.waiting ++ codes "\n" }
    {
        self.line_is_ended = true;
    }

    /// Writes all waiting bytes to the writer, as the last piece.
    pub fn finish<W: Write>(self, out: &mut W) -> Result<(), WriteFault>
        ensures { OnOk result (Appends (W.contents out.old) (W.contents out.new) self.waiting) }
    {
        let mut piece = self.piece;
        if self.line_is_ended {
            piece.append(b"\n");
        }
        piece.send(out)
    }
}
