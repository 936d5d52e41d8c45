// Tests of reading until the end of the input, or until a failure.

use crate::streams::Turn::{Fails, Gives};
use crate::streams::{Turn, Turns};
use program_parts::{FileFault, read_all};
use std::alloc::Global;
use std::io::ErrorKind;

const CANNOT: Result<usize, FileFault> = Err(FileFault::CannotRead);

/// Each row has the turns of a reader, the limit, and the result: the number of bytes that are
/// read, or the fault.
static ROWS: [(&[Turn], usize, Result<usize, FileFault>); 11] = [
    (&[], 1, Ok(0)),
    (&[Gives(9)], 10, Ok(9)),
    // An interrupted read is repeated.
    (
        &[Gives(4), Fails(ErrorKind::Interrupted), Gives(5)],
        10,
        Ok(9),
    ),
    // The input has as many bytes as the limit, in one read and in two.
    (&[Gives(10)], 10, CANNOT),
    (&[Gives(9), Gives(1)], 10, CANNOT),
    (&[Gives(9), Gives(100_000)], 10, CANNOT),
    // A read fails immediately, or after another read, or because the system has no memory.
    (&[Fails(ErrorKind::Other)], 10, CANNOT),
    (&[Gives(9), Fails(ErrorKind::Other)], 10, CANNOT),
    (&[Fails(ErrorKind::OutOfMemory)], 10, CANNOT),
    (&[Gives(9), Fails(ErrorKind::OutOfMemory)], 10, CANNOT),
    // A long file, which is read page by page.
    (
        &[Gives(100_000), Gives(100_000), Gives(3)],
        200_000,
        Ok(131_075),
    ),
];

/// Returns the number of bytes that are read from a reader with these turns.
fn length_read(alloc: Global, turns: &[Turn], limit: usize) -> Result<usize, FileFault> {
    match read_all(alloc, &mut Turns(turns), limit) {
        Ok(bytes) => Ok(bytes.len()),
        Err(fault) => Err(fault),
    }
}

#[test]
fn reads_end_or_fail(rt: HostRuntime) {
    for &(turns, limit, wanted) in &ROWS {
        assert!(rt; length_read(rt.alloc(), turns, limit) == wanted);
    }
}
