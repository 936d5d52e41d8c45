// A script with every form of line. It is for a registry of eight sectors that is empty or has the
// library `a`. On the disk of a liar, no library `b` can be read.
use samples::{library, program};
use std::alloc::{AllocError, Global};

/// Returns the script. The answers to its first three lines depend on the registry. The file of the
/// library `b` is also bound as a program, which needs no library.
pub(crate) fn script(alloc: Global) -> Result<String, AllocError> {
    let a = hex::encode(alloc, library(b'a', 0).as_slice())?;
    let b = hex::encode(alloc, library(b'b', 0).as_slice())?;
    let needing = hex::encode(alloc, program(b'a').as_slice())?;
    // After `replace` the disk is full. Then the preloads are read, and their bytes aren't the
    // files that were installed.
    format!(in alloc;
        "list\nbind 0x10000 {needing}\ninstall {a}\n\
        replace {a}\ninstall {b}\npreload b a\n\
        bind 0x10000 {b}\nremove a\npreload\nremove a\nremove a\nbind 0x10000 {needing}\n\
        bind 0x1 {b}\nbind 0x10000 {b}\nlist\nlists\nlist"
    )
}

/// The number of lines of the script.
pub(crate) const LINES: u64 = 17;

/// The answers to the lines after the first three. The image of the program is the program's file
/// without changes, because it has no relocations.
const ANSWERS: &[u8] = b"ok\nok\nok\nrefused S5 Damaged\nrefused C4 InPreloads\nok\nok\n\
    refused C3 NotInstalled\nrefused B3 Missing /program a\nrefused B2 BadBase\n\
    object 0x0000000000010000 /program\nsegment 0x0000000000010000 344 rw-\n\
    7f454c46020101000000000000000000\n03003e00010000000000000000000000\n\
    40000000000000000000000000000000\n00000000400038000200000000000000\n\
    01000000060000000000000000000000\n00000000000000000000000000000000\n\
    58010000000000005801000000000000\n00100000000000000200000006000000\n\
    e000000000000000e000000000000000\ne0000000000000007000000000000000\n\
    70000000000000000800000000000000\n01000000010000000000000000000000\n\
    00000000000000000000000000000000\n00000000000000000062000000000000\n\
    0e000000000000000100000000000000\n0400000000000000b000000000000000\n\
    0500000000000000d800000000000000\n0600000000000000c000000000000000\n\
    0a000000000000000400000000000000\n0b000000000000001800000000000000\n\
    00000000000000000000000000000000\n\
    0000000000000000\nend\n\
    library b 344\nend\nrefused L1 BadLine\nrefused L2 CutLine\n";

/// Returns whether these are the answers to all lines of the script. `first` has the answers to its
/// first three lines.
pub(crate) fn are_answers(output: &[u8], first: &str) -> bool {
    output.strip_prefix(first.as_bytes()) == Some(ANSWERS)
}
