// Adds lines of zeros in hexadecimal to a buffer.

ghost use Rattle.std.specs.Prelude.{◌≡◌, ◌*◌, ◌-◌, ◌%◌, ◌<◌, ◌≤◌, ◌++◌, drop, length, replicate};
ghost use Rattle.std.specs.Prelude.{true};
ghost use Rattle.std.specs.Prelude.{OnOk, OnErr, Ok};
ghost use Rattle.text_output.specs.Sends.{Sends, HasRoom, with_text};
ghost use Rattle.text_output.specs.Hexadecimal.{hex_lines};

use crate::buffer::OutputBuffer;
use crate::fault::WriteFault;
use crate::hexadecimal::{LINE_BYTES, LINE_TEXT, line};
use std::io::Write;

/// The maximum number of lines of zeros that are added one by one.
const FEW: u64 = 2048;

/// The number of bytes that are tested for zeros at once.
pub(crate) const BLOCK: usize = 64;

/// Returns whether a block has only zeros. Tests all bytes, so that the compiler can use vector
/// instructions.
fn is_zero(block: &[u8; BLOCK]) -> bool
    ensures { result ≡ true → block.now ≡ replicate (length block.now) 0 }
{
    let mut highest = 0;
    for i in 0..BLOCK {
        highest = block[i].max(highest);
    }
    highest == 0
}

/// Returns the offset at which the blocks of zeros at the end of `bytes` begin. `bytes` must be
/// whole blocks.
pub(crate) fn zeros_begin(bytes: &[u8]) -> usize
    requires { length bytes.now % BLOCK ≡ 0 }
    ensures within { result ≤ length bytes.now }
    ensures whole { result % BLOCK ≡ 0 }
    ensures zeros { drop result bytes.now ≡ replicate (length bytes.now - result) 0 }
{
    let (blocks, _) = bytes.as_chunks::<BLOCK>();
    let mut count = blocks.len();
    while count > 0 && is_zero(&blocks[count - 1]) {
        count -= 1;
    }
    BLOCK * count
}

/// Returns a line that begins with `bytes` and continues with zeros.
fn line_of(bytes: &[u8]) -> [u8; LINE_BYTES]
    requires { length bytes.now < LINE_BYTES }
    ensures { result ≡ bytes.now ++ replicate (LINE_BYTES - length bytes.now) 0 }
{
    let mut line = [0; LINE_BYTES];
    line[..bytes.len()].copy_from_slice(bytes);
    line
}

impl<const SIZE: usize> OutputBuffer<SIZE> {
    /// Adds `count` lines of zeros to the waiting bytes, one by one.
    fn put_few_zero_lines<W: Write>(&mut self, out: &mut W, count: u64) -> Result<(), WriteFault>
        ensures ok { OnOk result (Sends (W.contents out.old) self.old (W.contents out.new) self.new
            (hex_lines (replicate (16 * count) 0))) }
        ensures err { OnErr result (self.new.failed ≡ true) }
        ensures fits { HasRoom SIZE self.old (hex_lines (replicate (16 * count) 0))
            → (result ≡ Ok tt) × (out.new ≡ out.old)
            × (self.new ≡ with_text self.old (hex_lines (replicate (16 * count) 0))) }
    {
        let zeros = line(&[0; LINE_BYTES]);
        for _ in 0..count {
            self.put_piece(out, &zeros)?;
        }
        Ok(())
    }

    /// Adds `count` lines of zeros to the waiting bytes. If there are more than `FEW` lines, fills
    /// the buffer with such lines once, and sends it repeatedly.
    pub(crate) fn put_zero_lines<W: Write>(
        &mut self,
        out: &mut W,
        count: u64,
    ) -> Result<(), WriteFault>
        ensures ok { OnOk result (Sends (W.contents out.old) self.old (W.contents out.new) self.new
            (hex_lines (replicate (16 * count) 0))) }
        ensures err { OnErr result (self.new.failed ≡ true) }
    {
        if count <= FEW {
            return self.put_few_zero_lines(out, count);
        }
        self.send(out)?;
        let full = count.min((self.room() / LINE_TEXT) as u64);
        self.put_few_zero_lines(out, full)?;
        let mut left = count - full;
        while left >= full {
            self.send_and_keep(out)?;
            left -= full;
        }
        self.put_few_zero_lines(out, left)
    }
    /// Adds `count` zeros in hexadecimal to the waiting bytes, sixteen bytes to a line.
    fn put_zeros<W: Write>(&mut self, out: &mut W, count: u64) -> Result<(), WriteFault>
        ensures ok { OnOk result (Sends (W.contents out.old) self.old (W.contents out.new) self.new
            (hex_lines (replicate count 0))) }
        ensures err { OnErr result (self.new.failed ≡ true) }
    {
        let zeros = [0; LINE_BYTES];
        self.put_zero_lines(out, count / LINE_BYTES as u64)?;
        self.put_lines(out, &zeros[..(count % LINE_BYTES as u64) as usize])
    }

    /// Adds `bytes` and then `zeros` zeros, in hexadecimal, to the waiting bytes, sixteen bytes to
    /// a line. Formats the lines of zeros only once.
    pub fn put_padded_hex_lines<W: Write>(
        &mut self,
        out: &mut W,
        bytes: &[u8],
        zeros: u64,
    ) -> Result<(), WriteFault>
        ensures ok { OnOk result (Sends (W.contents out.old) self.old (W.contents out.new) self.new
            (hex_lines (bytes.now ++ replicate zeros 0))) }
        ensures err { OnErr result (self.new.failed ≡ true) }
    {
        let (lines, rest) = bytes.split_at(bytes.len() - bytes.len() % LINE_BYTES);
        self.put_hex_lines(out, lines)?;
        let line = line_of(rest);
        let more = zeros.min((LINE_BYTES - rest.len()) as u64);
        self.put_lines(out, &line[..rest.len() + more as usize])?;
        self.put_zeros(out, zeros - more)
    }
}
