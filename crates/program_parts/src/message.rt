// Messages on standard error. A failed write to standard error doesn't change the status.

ghost use Rattle.std.specs.Prelude.{◌≡◌, ◌++◌, codes, OnOk};
ghost use Rattle.std.specs.Io.KnownBytes.{Appends};
ghost use Rattle.program_parts.specs.Said.{AppendsFront};
ghost use Rattle.program_parts.specs.declared.status.Status.TheVariants.{Failed};

use crate::status::Status;
use std::io::{ErrorKind, Write};
use text_output::{LINE, OutputBuffer, WriteFault};

/// Writes a line to a stream, with one write if the stream accepts the whole line at once. Stops if
/// the stream fails or accepts no more bytes.
pub fn say<E: Write>(errors: &mut E, line: &[u8])
    ensures { AppendsFront (E.contents errors.old) (E.contents errors.new) line.now }
{
    let mut given = 0;
    // Each round writes a byte, returns, or was interrupted by a signal. The bound is never reached:
    // 2^64 calls would take centuries.
    for _ in 0..u64::MAX {
        if given == line.len() {
            return;
        }
        match errors.write(&line[given..]) {
            Ok(0) => return,
            Ok(count) => given += count,
            Err(fault) if fault.kind() == ErrorKind::Interrupted => {}
            Err(_) => return,
        }
    }
}

/// Writes the line that reports that a program can't read a path. Makes one write, unless the line
/// is longer than the buffer of a line.
fn write_unreadable<E: Write>(errors: &mut E, program: &[u8], path: &[u8]) -> Result<(), WriteFault>
    ensures { OnOk result (Appends (E.contents errors.old) (E.contents errors.new)
        (program.now ++ codes ": cannot read " ++ path.now ++ codes "\n")) }
{
    let mut line = OutputBuffer::<LINE>::new();
    line.put(errors, program)?;
    line.put(errors, b": cannot read ")?;
    line.put(errors, path)?;
    line.put(errors, b"\n")?;
    line.send(errors)
}

/// Reports that the program `program` can't read `path`.
pub fn cannot_read<E: Write>(errors: &mut E, program: &str, path: &str) -> Status
    ensures { result ≡ Failed }
{
    let _ = write_unreadable(errors, program.as_bytes(), path.as_bytes());
    Status::Failed
}

/// Reports that the program `program` can't occupy the numbers of the standard streams. Returns the
/// exit status.
pub fn cannot_hold<E: Write>(errors: &mut E, program: &str) -> u8
    ensures { result ≡ 3 }
{
    cannot_read(errors, program, "/").number()
}
