// HEX: pairs of hexadecimal digits, and the bytes that they encode.

ghost use Rattle.std.specs.Prelude.{◌≡◌, ◌+◌, ◌*◌, ◌<◌, ℕ, slice_index, Some, None};
ghost use Rattle.std.specs.Prelude.{unwrap_or, IfOk, IfSome};
ghost use Rattle.std.specs.Option.{option_map};
ghost use Rattle.std.specs.Result.{result_ok};
ghost use Rattle.hex.specs.Hex.{decode_of, hex_digit_value};
ghost use Rattle.scripts.specs.Words.{hex_bytes};

use std::alloc::{AllocError, Global};

/// The maximum number of bytes that are decoded at once.
const PIECE: usize = 16;

/// The number of digits of a piece.
const DIGITS: usize = 2 * PIECE;

/// The value that stands for a byte that isn't a digit.
const NO_DIGIT: u8 = 16;

/// Returns the value of a digit of either case. Uses arithmetic instead of a table, so that the
/// compiler can read all digits of a piece at once.
fn digit_value(digit: u8) -> u8
    ensures { result ≡ unwrap_or (hex_digit_value digit) NO_DIGIT }
{
    if digit >= b'0' && digit <= b'9' {
        digit - b'0'
    } else if digit >= b'a' && digit <= b'f' {
        digit - b'a' + 10
    } else if digit >= b'A' && digit <= b'F' {
        digit - b'A' + 10
    } else {
        NO_DIGIT
    }
}

/// Returns the values of the digits of a piece, or `None` if one of its bytes isn't a digit.
fn values_of(digits: &[u8; DIGITS]) -> Option<[u8; DIGITS]>
    ensures all { IfSome result (λ values. (k : ℕ) → k < 32
        → hex_digit_value (slice_index digits.now k) ≡ Some (slice_index values k)) }
    ensures other { result ≡ None
        → (k : ℕ) × (k < 32) × (hex_digit_value (slice_index digits.now k) ≡ None) }
{
    let mut values = [0; DIGITS];
    // The greatest value so far. It is `NO_DIGIT` if one of the bytes so far isn't a digit.
    let mut greatest = 0u8;
    for i in 0..DIGITS {
        let value = digit_value(digits[i]);
        greatest = greatest.max(value);
        values[i] = value;
    }
    if greatest < NO_DIGIT {
        Some(values)
    } else {
        None
    }
}

/// Returns the byte that the values of two digits encode. Computes with one number instead of two,
/// so that the compiler can make all bytes of a piece at once.
fn byte_of(values: [u8; 2]) -> u8
    requires high { slice_index values 0 < 16 }
    requires low { slice_index values 1 < 16 }
    ensures { result ≡ slice_index values 0 * 16 + slice_index values 1 }
{
    let pair = u16::from_le_bytes(values);
    ((pair * 16 + pair / 256) % 256) as u8
}

/// Returns the bytes of a piece, or `None` if one of its characters isn't a digit.
fn decode_piece(digits: &[u8; DIGITS]) -> Option<[u8; PIECE]>
    ensures { result ≡ result_ok (decode_of digits.now) }
{
    let Some(values) = values_of(digits) else {
        return None;
    };
    let (pairs, _) = values.as_chunks::<2>();
    let mut bytes = [0; PIECE];
    for i in 0..PIECE {
        bytes[i] = byte_of(pairs[i]);
    }
    Some(bytes)
}

/// Returns the bytes that HEX encodes, or `None` if the word isn't HEX. If the number of digits is
/// odd, allocates no memory.
pub(crate) fn hex_bytes(alloc: Global, word: &[u8]) -> Result<Option<Vec<u8>>, AllocError>
    ensures { IfOk result (λ bytes. option_map (λ v. v.items) bytes ≡ hex_bytes word.now) }
{
    if word.is_empty() || word.len() % 2 != 0 {
        return Ok(None);
    }
    let mut bytes = Vec::with_capacity(alloc, word.len() / 2)?;
    let (pieces, rest) = word.as_chunks::<DIGITS>();
    for piece in pieces {
        match decode_piece(piece) {
            Some(decoded) => bytes.extend_from_slice(&decoded)?,
            None => return Ok(None),
        }
    }
    let mut last = [0; PIECE];
    let last = &mut last[..rest.len() / 2];
    let Ok(()) = hex::decode_to_slice(rest, last) else {
        return Ok(None);
    };
    bytes.extend_from_slice(last)?;
    Ok(Some(bytes))
}
