// Adds numbers in decimal to a buffer.

ghost use Rattle.std.specs.Prelude.{◌≡◌, true, OnOk, OnErr, Ok};
ghost use Rattle.std.specs.Fmt.{decimal};
ghost use Rattle.text_output.specs.Sends.{Sends, HasRoom, with_text};

use crate::buffer::OutputBuffer;
use crate::fault::WriteFault;
use itoa::Buffer;
use std::io::Write;

impl<const SIZE: usize> OutputBuffer<SIZE> {
    /// Adds a number in decimal to the waiting bytes.
    pub fn put_decimal<W: Write>(&mut self, out: &mut W, n: u64) -> Result<(), WriteFault>
        ensures ok { OnOk result (Sends (W.contents out.old) self.old (W.contents out.new) self.new
            (decimal n)) }
        ensures err { OnErr result (self.new.failed ≡ true) }
        ensures fits { HasRoom SIZE self.old (decimal n)
            → (result ≡ Ok tt) × (out.new ≡ out.old)
            × (self.new ≡ with_text self.old (decimal n)) }
    {
        let mut digits = Buffer::new();
        self.put_piece(out, digits.format(n).as_bytes())
    }
}
