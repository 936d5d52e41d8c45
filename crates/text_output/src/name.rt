// Writes names as text.

ghost use Rattle.std.specs.Prelude.{◌≡◌, true, OnOk, OnErr, Ok};
ghost use Rattle.std.specs.Io.KnownBytes.{Appends};
ghost use Rattle.text_output.specs.Name.{name_byte_text, name_text};
ghost use Rattle.text_output.specs.Sends.{Sends, HasRoom, with_text};

use crate::buffer::OutputBuffer;
use crate::fault::WriteFault;
use std::io::Write;

/// The size of a buffer for texts of one line, in bytes.
pub const LINE: usize = 2048;

impl<const SIZE: usize> OutputBuffer<SIZE> {
    fn put_name_byte<W: Write>(&mut self, out: &mut W, byte: u8) -> Result<(), WriteFault>
        ensures ok { OnOk result (Sends (W.contents out.old) self.old (W.contents out.new) self.new
            (name_byte_text byte)) }
        ensures err { OnErr result (self.new.failed ≡ true) }
        ensures fits { HasRoom SIZE self.old (name_byte_text byte)
            → (result ≡ Ok tt) × (out.new ≡ out.old)
            × (self.new ≡ with_text self.old (name_byte_text byte)) }
    {
        if byte >= 0x21 && byte <= 0x7e && byte != b'\\' {
            return self.put_piece(out, &[byte]);
        }
        let mut digits = [0u8; 2];
        let _ = hex::encode_to_slice([byte], &mut digits);
        self.put_piece(out, &[b'\\', b'x', digits[0], digits[1]])
    }

    /// Adds a name to the waiting bytes. Adds the bytes 0x21 to 0x7e except `\` unchanged, and each
    /// other byte as `\x` and two hexadecimal digits. The text of the empty name is `\e`.
    pub fn put_name<W: Write>(&mut self, out: &mut W, name: &[u8]) -> Result<(), WriteFault>
        ensures ok { OnOk result (Sends (W.contents out.old) self.old (W.contents out.new) self.new
            (name_text name.now)) }
        ensures err { OnErr result (self.new.failed ≡ true) }
        ensures fits { HasRoom SIZE self.old (name_text name.now)
            → (result ≡ Ok tt) × (out.new ≡ out.old)
            × (self.new ≡ with_text self.old (name_text name.now)) }
    {
        if name.is_empty() {
            return self.put_piece(out, b"\\e");
        }
        for byte in name {
            self.put_name_byte(out, *byte)?;
        }
        Ok(())
    }
}

/// Writes a name in the format of `OutputBuffer::put_name`. If the writer's contents are known, the
/// name's text is appended to them.
///
/// Allocates nothing. Writes a name with one write if its text isn't longer than `LINE`.
pub fn write_name<W: Write>(out: &mut W, name: &[u8]) -> Result<(), WriteFault>
    ensures { OnOk result (Appends (W.contents out.old) (W.contents out.new) (name_text name.now)) }
{
    let mut buffer = OutputBuffer::<LINE>::new();
    buffer.put_name(out, name)?;
    buffer.send(out)
}
