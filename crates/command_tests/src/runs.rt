// Runs command lines, and compares the status and the output of each with the expected ones.

use commands::run_arguments;
use std::fs::File;
use std::io::ErrorKind;
use std::test::Fail;
use std::{fs, io};

/// Returns the words of a command line, each in a string of its own.
pub(crate) fn words_of(rt: &HostRuntime, words: &[&str]) -> io::Result<Vec<String>> {
    let mut list = Vec::new(rt.alloc());
    for word in words {
        list.push(String::from_str(rt.alloc(), word)?)?;
    }
    Ok(list)
}

/// The expected status, output, and text on standard error.
type Wanted = (u8, &'static str, &'static str);

/// Returns whether a command line ends as expected. `words` are its words, or the error of reading
/// them. The input is for scripts only.
pub(crate) fn ends(rt: &HostRuntime, words: io::Result<Vec<String>>, wanted: Wanted) -> bool {
    let mut input = b"list\n".as_slice();
    let mut output = Vec::new(rt.alloc());
    let mut errors = Vec::new(rt.alloc());
    let status = run_arguments(rt, rt.alloc(), words, &mut input, &mut output, &mut errors);
    status == wanted.0
        && output.as_slice() == wanted.1.as_bytes()
        && errors.as_slice() == wanted.2.as_bytes()
}

/// A command line and its results.
type Row = (&'static [&'static str], Wanted);

/// The result if nothing is reported, because the text would be written into the disk.
const UNTOLD: Wanted = (3, "", "");

const NO_DISK: Wanted = (1, "refused S6 BadGeometry\n", "");

const BAD_BASE: Wanted = (2, "", "rlibreg: bad base\n");

/// Command lines with blanks in a base, with a DISK that is also standard error, with a file that
/// is one sector too long, and with a device.
static ROWS: [Row; 19] = [
    (&["image", "no such file", " 0x10"], BAD_BASE),
    (&["image", "no such file", "0x10 "], BAD_BASE),
    (&["image", "no such file", "0x1 0"], BAD_BASE),
    (&["image", "no such file", "0x\n"], BAD_BASE),
    (&["format", "/proc/self/fd/2", "8"], UNTOLD),
    (&["upgrade", "/proc/self/fd/2"], UNTOLD),
    (&["install", "/proc/self/fd/2", "none"], UNTOLD),
    (&["replace", "/proc/self/fd/2", "none"], UNTOLD),
    (&["remove", "/proc/self/fd/2", "a"], UNTOLD),
    (&["preload", "/proc/self/fd/2"], UNTOLD),
    (&["list", "/proc/self/fd/2"], UNTOLD),
    (&["bind", "/proc/self/fd/2", "none", "0x10000"], UNTOLD),
    (&["script", "/proc/self/fd/2"], UNTOLD),
    (&["bind", "/proc/self/fd/2", "none", "10"], (2, "", "")),
    (&["list", "sectors.disk"], NO_DISK),
    (&["upgrade", "sectors.disk"], NO_DISK),
    (&["script", "sectors.disk"], NO_DISK),
    (&["format", "sectors.disk", "8"], NO_DISK),
    (
        &["format", "/dev/null", "8"],
        (3, "", "rlibreg: cannot read /dev/null\n"),
    ),
];

#[test]
fn command_lines_end_so(rt: HostRuntime) -> Result<(), Fail> {
    File::create(&rt, "sectors.disk")?.set_len(4_194_305 * 512)?;
    for &(words, wanted) in &ROWS {
        assert!(rt; ends(&rt, words_of(&rt, words), wanted));
    }
    fs::remove_file(&rt, "sectors.disk")?;
    Ok(())
}

/// The line that reports that memory was refused.
const MEMORY: &str = "refused S11 OutOfMemory\n";

#[test]
fn words_that_are_not_read(rt: HostRuntime) {
    for (kind, wanted) in [
        // A word that isn't UTF-8.
        (
            ErrorKind::InvalidData,
            (2, "", "rlibreg: bad command line\n"),
        ),
        (ErrorKind::OutOfMemory, (4, MEMORY, "")),
    ] {
        assert!(rt; ends(&rt, Err(io::Error::from(kind)), wanted));
    }
}
