// Readers and writers that fail.

use std::io;
use std::io::{ErrorKind, Read, Write};

/// The effect of one call of a reader.
#[derive(Clone, Copy)]
pub(crate) enum Turn {
    /// The call returns this number of bytes, or fewer if fewer are requested.
    Gives(usize),
    /// The call returns this text.
    Says(&'static str),
    /// The call fails with an error of this kind.
    Fails(ErrorKind),
}

/// A reader whose calls have these effects in turn. After the last of them, it reports the end of
/// its input.
#[derive(Drop)]
pub(crate) struct Turns<'a>(pub(crate) &'a [Turn]);

impl Read for Turns<'_> {
    fn read(&mut self, buf: &mut [u8]) -> io::Result<usize> {
        let Some((turn, others)) = self.0.split_first() else {
            return Ok(0);
        };
        self.0 = others;
        match turn {
            Turn::Gives(count) => {
                let count = (*count).min(buf.len());
                buf[..count].fill(7);
                Ok(count)
            }
            Turn::Says(text) => {
                let count = text.len().min(buf.len());
                buf[..count].copy_from_slice(&text.as_bytes()[..count]);
                Ok(count)
            }
            Turn::Fails(kind) => Err(io::Error::from(*kind)),
        }
    }
}

/// A writer that accepts `room` bytes, and then fails. Counts its calls.
#[derive(Drop)]
pub(crate) struct Full {
    pub(crate) room: usize,
    pub(crate) calls: u64,
}

impl Full {
    pub(crate) fn with_room(room: usize) -> Full {
        Full { room, calls: 0 }
    }
}

impl Write for Full {
    fn write(&mut self, bytes: &[u8]) -> io::Result<usize> {
        self.calls = self.calls.saturating_add(1);
        if bytes.len() > self.room {
            return Err(io::Error::from(ErrorKind::StorageFull));
        }
        self.room -= bytes.len();
        Ok(bytes.len())
    }

    fn flush(&mut self) -> io::Result<()> {
        Ok(())
    }
}

/// A writer that accepts a number of writes, of at most `most` bytes each, and then fails.
#[derive(Drop)]
pub(crate) struct Stops {
    pub(crate) writes: usize,
    pub(crate) most: usize,
    pub(crate) taken: Vec<u8>,
}

impl Write for Stops {
    fn write(&mut self, bytes: &[u8]) -> io::Result<usize> {
        if self.writes == 0 {
            return Err(io::Error::from(ErrorKind::StorageFull));
        }
        self.writes -= 1;
        let count = bytes.len().min(self.most);
        self.taken.extend_from_slice(&bytes[..count])?;
        Ok(count)
    }

    fn flush(&mut self) -> io::Result<()> {
        Ok(())
    }
}
