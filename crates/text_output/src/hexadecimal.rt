// Adds addresses and bytes in hexadecimal to a buffer.

ghost use Rattle.std.specs.Prelude.{◌≡◌, ◌<◌, ◌/◌, ◌%◌, ◌++◌, length, slice_index, codes, true};
ghost use Rattle.std.specs.Prelude.{OnOk, OnErr, Ok};
ghost use Rattle.hex.specs.Hex.{lower_digits, encode_lower};
ghost use Rattle.text_output.specs.Sends.{Sends, HasRoom, with_text};
ghost use Rattle.text_output.specs.Hexadecimal.{address_text, hex_lines};

use crate::buffer::OutputBuffer;
use crate::fault::WriteFault;
use crate::zeros::{BLOCK, zeros_begin};
use std::io::Write;

/// The number of bytes in one line of text.
pub(crate) const LINE_BYTES: usize = 16;

/// The length of a complete line of text in bytes, with its newline.
pub(crate) const LINE_TEXT: usize = 2 * LINE_BYTES + 1;

/// Returns the two digits of a byte. Computes both at once, each in one half of a number, so that
/// the compiler can compute all digits of a line at once.
fn digits(byte: u8) -> [u8; 2]
    ensures first { slice_index result 0 ≡ slice_index lower_digits (byte / 16) }
    ensures second { slice_index result 1 ≡ slice_index lower_digits (byte % 16) }
{
    let wide = u16::from(byte);
    let values = wide / 16 + wide % 16 * 256;
    // The half of a digit is 1 if the digit is a letter: the code of `a` is 39 more than that of
    // the character after `9`.
    let letters = ((values + 0x0606) / 16) & 0x0101;
    (values + 0x3030 + letters * 39).to_le_bytes()
}

/// Returns the line for sixteen bytes: their hexadecimal digits, and a newline.
pub(crate) fn line(bytes: &[u8; LINE_BYTES]) -> [u8; LINE_TEXT]
    ensures { result ≡ encode_lower bytes.now ++ codes "\n" }
{
    let mut text = [b'\n'; LINE_TEXT];
    for i in 0..LINE_BYTES {
        let [first, second] = digits(bytes[i]);
        text[2 * i] = first;
        text[2 * i + 1] = second;
    }
    text
}

impl<const SIZE: usize> OutputBuffer<SIZE> {
    /// Adds an address in 16 hexadecimal digits to the waiting bytes.
    pub fn put_address<W: Write>(&mut self, out: &mut W, address: u64) -> Result<(), WriteFault>
        ensures ok { OnOk result (Sends (W.contents out.old) self.old (W.contents out.new) self.new
            (address_text address)) }
        ensures err { OnErr result (self.new.failed ≡ true) }
        ensures fits { HasRoom SIZE self.old (address_text address)
            → (result ≡ Ok tt) × (out.new ≡ out.old)
            × (self.new ≡ with_text self.old (address_text address)) }
    {
        let mut digits = [0u8; 16];
        let _ = hex::encode_to_slice(address.to_be_bytes(), &mut digits);
        self.put_piece(out, &digits)
    }

    /// Adds `bytes`, of which there are fewer than sixteen, to the waiting bytes, as one line of
    /// hexadecimal digits.
    fn put_short_line<W: Write>(&mut self, out: &mut W, bytes: &[u8]) -> Result<(), WriteFault>
        requires { length bytes.now < LINE_BYTES }
        ensures ok { OnOk result (Sends (W.contents out.old) self.old (W.contents out.new) self.new
            (encode_lower bytes.now ++ codes "\n")) }
        ensures err { OnErr result (self.new.failed ≡ true) }
    {
        let mut text = [0u8; 2 * LINE_BYTES];
        let digits = &mut text[..2 * bytes.len()];
        let _ = hex::encode_to_slice(bytes, digits);
        self.put_piece(out, digits)?;
        self.put_piece(out, b"\n")
    }

    /// Adds bytes in hexadecimal to the waiting bytes, sixteen bytes to a line. Formats each line
    /// separately.
    pub(crate) fn put_lines<W: Write>(
        &mut self,
        out: &mut W,
        bytes: &[u8],
    ) -> Result<(), WriteFault>
        ensures ok { OnOk result (Sends (W.contents out.old) self.old (W.contents out.new) self.new
            (hex_lines bytes.now)) }
        ensures err { OnErr result (self.new.failed ≡ true) }
    {
        let (lines, rest) = bytes.as_chunks::<LINE_BYTES>();
        for bytes in lines {
            self.put_piece(out, &line(bytes))?;
        }
        if rest.is_empty() {
            return Ok(());
        }
        self.put_short_line(out, rest)
    }

    /// Adds bytes in hexadecimal to the waiting bytes, sixteen bytes to a line. If the bytes end
    /// with more than 2,048 lines of zeros, formats these lines only once.
    pub fn put_hex_lines<W: Write>(&mut self, out: &mut W, bytes: &[u8]) -> Result<(), WriteFault>
        ensures ok { OnOk result (Sends (W.contents out.old) self.old (W.contents out.new) self.new
            (hex_lines bytes.now)) }
        ensures err { OnErr result (self.new.failed ≡ true) }
    {
        let (lines, rest) = bytes.split_at(bytes.len() - bytes.len() % BLOCK);
        let (front, zeros) = lines.split_at(zeros_begin(lines));
        self.put_lines(out, front)?;
        self.put_zero_lines(out, (zeros.len() / LINE_BYTES) as u64)?;
        self.put_lines(out, rest)
    }
}
