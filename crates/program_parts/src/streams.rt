// The standard streams of the process: their numbers, and their files.

use std::fs::{File, Metadata};
use std::io::ErrorKind;
use std::os::unix::fs::{FileTypeExt, MetadataExt};
use std::rt::Files;
use std::{fs, io};

/// The folder that is opened instead of a closed stream. No byte can be read from it or written to
/// it, because it is a folder.
const FOLDER: &str = "/";

/// The paths that name the files of the standard streams.
const INPUT: &str = "/proc/self/fd/0";

const OUTPUT: &str = "/proc/self/fd/1";

const ERRORS: &str = "/proc/self/fd/2";

/// The numbers of the standard streams. As long as this value exists, no file that is opened gets
/// one of these numbers.
///
/// The system gives a file the lowest free number. If a process was started with a closed standard
/// stream, the next file that it opens would become this stream, and a message on the stream would
/// be written into the file.
#[derive(Drop)]
pub struct StandardStreams<F> {
    /// Three files are enough to occupy the three numbers if all of them are free. If some are
    /// occupied already, some of the files have greater numbers.
    held: [F; 3],
}

impl<F: Drop> StandardStreams<F> {
    /// Occupies those of the three numbers that are free. You must call this before you open any
    /// other file. After the call, each read and each write of a stream that was closed fails.
    /// Returns an error if the numbers can't be occupied.
    pub fn hold<R: Files<File = F>>(rt: &R) -> io::Result<StandardStreams<F>> {
        let held = open_three(rt)?;
        Ok(StandardStreams { held })
    }

    /// Releases the numbers. You must call this after you have opened the last file.
    pub fn release(self) {
        let StandardStreams { held } = self;
        drop(held);
    }
}

/// Opens the folder three times.
fn open_three<R: Files>(rt: &R) -> io::Result<[R::File; 3]> {
    Ok([
        File::open(rt, FOLDER)?,
        File::open(rt, FOLDER)?,
        File::open(rt, FOLDER)?,
    ])
}

/// The relation of the standard streams of the process to the file at a path. It is determined
/// without opening a file.
#[derive(Clone, Copy)]
pub enum Behind {
    /// The streams lead to other files than the path, or to no file.
    Other,
    /// The input or the output leads to the path's file, or the file of a stream is unknown.
    OtherStream,
    /// Standard error leads to the path's file, so a message would be written into this file.
    Errors,
}

/// Returns the relation of the standard streams to the file at `path`. The input counts only if
/// `reads_input` is true.
pub fn behind_streams<R: Files>(rt: &R, path: &str, reads_input: bool) -> Behind {
    let Ok(found) = fs::metadata(rt, path) else {
        return Behind::Other;
    };
    let errors = is_behind(rt, &found, ERRORS);
    if errors == Some(true) {
        return Behind::Errors;
    }
    let output = is_behind(rt, &found, OUTPUT);
    let input = if reads_input {
        is_behind(rt, &found, INPUT)
    } else {
        Some(false)
    };
    match (errors, output, input) {
        (Some(false), Some(false), Some(false)) => Behind::Other,
        _ => Behind::OtherStream,
    }
}

/// Returns whether the stream with the path `stream` leads to the file `found`, or `None` if this
/// is unknown. Returns `Some(false)` if there is no such path.
fn is_behind<R: Files>(rt: &R, found: &Metadata, stream: &str) -> Option<bool> {
    match fs::metadata(rt, stream) {
        Ok(behind) => Some(is_same_file(found, &behind)),
        Err(fault) if fault.kind() == ErrorKind::NotFound => Some(false),
        Err(_) => None,
    }
}

/// Returns whether `one` and `other` describe the same file, or the same block device at two nodes.
fn is_same_file(one: &Metadata, other: &Metadata) -> bool {
    let are_devices = one.file_type().is_block_device() && other.file_type().is_block_device();
    (one.dev() == other.dev() && one.ino() == other.ino())
        || (are_devices && one.rdev() == other.rdev())
}
