// A buffer for bytes that haven't been written to a writer yet.

ghost use Rattle.std.specs.Prelude.{◌≡◌, ◌+◌, ◌≤◌, [], ◌++◌, length, true, false};
ghost use Rattle.std.specs.Prelude.{OnOk, OnErr, IsErr, Ok};
ghost use Rattle.std.specs.Io.KnownBytes.{Appends};
ghost use Rattle.text_output.specs.Sends.{Sends, HasRoom, with_text};

use crate::fault::WriteFault;
use std::io::Write;
use std::marker::Model;

/// The minimum size of a buffer in bytes. This is also the maximum length of a text that is added
/// in one step; a longer text is added in several steps.
pub const PIECE: usize = 64;

/// At most `SIZE` bytes that haven't been written to a writer yet: the waiting bytes.
///
/// The bytes are in the value itself, so writing allocates nothing. `OutputBuffer<LINE>` is large
/// enough for a line; a larger buffer is for a long text. After the writer has failed, the buffer
/// writes nothing more to it, because nobody knows how many bytes the writer has accepted. In
/// contracts, the value is the waiting bytes, and whether the writer has failed.
#[derive(Drop)]
pub struct OutputBuffer<const SIZE: usize> {
    bytes: [u8; SIZE],
    used: usize,
    failed: bool,
}

impl<const SIZE: usize> Model for OutputBuffer<SIZE> {
    ghost use Rattle.std.specs.Prelude.{◌≤◌, take};
    ghost use Rattle.text_output.specs.Sends.{Buffered};

    ghost Value = { Buffered };

    ghost view = { λ b. record { waiting = take b.used b.bytes; failed = b.failed } };

    ghost use Rattle.text_output.specs.declared.buffer.TheConstants.{PIECE};

    ghost invariant = { λ b. (b.used ≤ SIZE) × (PIECE ≤ SIZE) };
}

impl<const SIZE: usize> OutputBuffer<SIZE> {
    /// Makes a buffer without waiting bytes.
    pub fn new() -> Self
        requires { PIECE ≤ SIZE }
        ensures { result ≡ record { waiting = []; failed = false } }
    {
        OutputBuffer {
            bytes: [0; SIZE],
            used: 0,
            failed: false,
        }
    }

    /// Returns the number of bytes for which the buffer still has room.
    pub(crate) fn room(&self) -> usize
        ensures room { result + length self.now.waiting ≡ SIZE }
        ensures size { PIECE ≤ SIZE }
    {
        SIZE - self.used
    }

    pub(crate) fn append(&mut self, text: &[u8])
        requires { length self.old.waiting + length text.now ≤ SIZE }
        ensures waiting { self.new.waiting ≡ self.old.waiting ++ text.now }
        ensures failed { self.new.failed ≡ self.old.failed }
    {
        let end = self.used + text.len();
        self.bytes.as_mut_slice()[self.used..end].copy_from_slice(text);
        self.used = end;
    }

    fn as_slice(&self) -> &[u8]
        ensures { result.now ≡ self.now.waiting }
    {
        &self.bytes.as_slice()[..self.used]
    }

    fn clear(&mut self)
        ensures waiting { self.new.waiting ≡ [] }
        ensures failed { self.new.failed ≡ self.old.failed }
    {
        self.used = 0;
    }

    fn has_failed(&self) -> bool
        ensures { result ≡ self.now.failed }
    {
        self.failed
    }

    fn note_failure(&mut self)
        ensures { self.new ≡ record { waiting = self.old.waiting; failed = true } }
    {
        self.failed = true;
    }

    /// Writes the waiting bytes to the writer with one call of `write_all`, and keeps them in the
    /// buffer.
    pub(crate) fn send_and_keep<W: Write>(&mut self, out: &mut W) -> Result<(), WriteFault>
        ensures ok { OnOk result (Appends (W.contents out.old) (W.contents out.new)
            self.old.waiting) }
        ensures kept { OnOk result
            (self.new ≡ record { waiting = self.old.waiting; failed = false }) }
        ensures err { OnErr result
            (self.new ≡ record { waiting = self.old.waiting; failed = true }) }
        ensures failed { self.old.failed ≡ true → IsErr result × (out.new ≡ out.old) }
    {
        if self.has_failed() {
            return Err(WriteFault);
        }
        match out.write_all(self.as_slice()) {
            Ok(()) => Ok(()),
            Err(_) => {
                self.note_failure();
                Err(WriteFault)
            }
        }
    }

    /// Writes the waiting bytes to the writer with one call of `write_all`, and removes them from
    /// the buffer.
    pub fn send<W: Write>(&mut self, out: &mut W) -> Result<(), WriteFault>
        ensures ok { OnOk result (Appends (W.contents out.old) (W.contents out.new)
            self.old.waiting) }
        ensures sent { OnOk result (self.new ≡ record { waiting = []; failed = false }) }
        // After a fault the bytes are still waiting, and the value states that the writer has
        // failed.
        ensures err { OnErr result
            (self.new ≡ record { waiting = self.old.waiting; failed = true }) }
        // A writer that has failed receives nothing more.
        ensures failed { self.old.failed ≡ true → IsErr result × (out.new ≡ out.old) }
    {
        self.send_and_keep(out)?;
        self.clear();
        Ok(())
    }

    /// Adds a short text to the waiting bytes. If the buffer has no room for the text, sends the
    /// waiting bytes first.
    pub(crate) fn put_piece<W: Write>(&mut self, out: &mut W, text: &[u8]) -> Result<(), WriteFault>
        requires { length text.now ≤ PIECE }
        ensures ok { OnOk result (Sends (W.contents out.old) self.old (W.contents out.new) self.new
            text.now) }
        ensures err { OnErr result (self.new.failed ≡ true) }
        // If the buffer has room for the text, the writer isn't called.
        ensures fits { HasRoom SIZE self.old text.now
            → (result ≡ Ok tt) × (out.new ≡ out.old)
            × (self.new ≡ with_text self.old text.now) }
    {
        if self.room() < text.len() {
            self.send(out)?;
        }
        self.append(text);
        Ok(())
    }

    /// Adds a text to the waiting bytes. Sends the waiting bytes each time that the buffer is full.
    pub fn put<W: Write>(&mut self, out: &mut W, text: &[u8]) -> Result<(), WriteFault>
        ensures ok { OnOk result (Sends (W.contents out.old) self.old (W.contents out.new) self.new
            text.now) }
        ensures err { OnErr result (self.new.failed ≡ true) }
        ensures fits { HasRoom SIZE self.old text.now
            → (result ≡ Ok tt) × (out.new ≡ out.old)
            × (self.new ≡ with_text self.old text.now) }
    {
        for piece in text.chunks(PIECE) {
            self.put_piece(out, piece)?;
        }
        Ok(())
    }
}
