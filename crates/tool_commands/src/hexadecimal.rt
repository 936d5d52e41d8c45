// Appends bytes in hexadecimal to a buffered text, without a newline.

ghost use Rattle.std.specs.Prelude.{◌≤◌, OnOk, length};
ghost use Rattle.hex.specs.Hex.{encode_lower};
ghost use Rattle.text_output.specs.Sends.{Sends};
ghost use Rattle.text_output.specs.Pieces.{EndsWithinLine};

use std::io::Write;
use text_output::{PieceBuffer, WriteFault};

/// The maximum number of bytes that are encoded at once.
const PIECE_BYTES: usize = 32;

/// Appends bytes in lower-case hexadecimal to the buffered text, without a newline.
pub(crate) fn put_hex<W: Write>(
    text: &mut PieceBuffer,
    out: &mut W,
    bytes: &[u8],
) -> Result<(), WriteFault>
    ensures ok { OnOk result (Sends (W.contents out.old) text.old (W.contents out.new) text.new
        (encode_lower bytes.now)) }
    ensures within { EndsWithinLine text.old.waiting
        → OnOk result (EndsWithinLine text.new.waiting) }
{
    for piece in bytes.chunks(PIECE_BYTES) {
        put_hex_piece(text, out, piece)?;
    }
    Ok(())
}

/// Appends at most `PIECE_BYTES` bytes in lower-case hexadecimal to the buffered text.
fn put_hex_piece<W: Write>(
    text: &mut PieceBuffer,
    out: &mut W,
    piece: &[u8],
) -> Result<(), WriteFault>
    requires { length piece.now ≤ PIECE_BYTES }
    ensures ok { OnOk result (Sends (W.contents out.old) text.old (W.contents out.new) text.new
        (encode_lower piece.now)) }
    ensures within { EndsWithinLine text.old.waiting
        → OnOk result (EndsWithinLine text.new.waiting) }
{
    let mut digits = [0u8; 2 * PIECE_BYTES];
    let spelt = &mut digits[..2 * piece.len()];
    let _ = hex::encode_to_slice(piece, spelt);
    text.put(out, spelt)
}
