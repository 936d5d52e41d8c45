// A file that is completed under another name before it gets its own name.

ghost use Rattle.std.specs.Prelude.{IfErr};
ghost use Rattle.file_disk.specs.Length.{IsLengthFault};

use crate::locked::{TRIES, is_same_file};
use crate::open::{OpenFault, is_free, open_folder};
use std::alloc::{AllocError, Global};
use std::fs::{File, TryLockError};
use std::io::ErrorKind;
use std::path::Path;
use std::rt::Files;
use std::{fs, io};
use thiserror::Error;

/// The maximum length of a name in bytes.
const LONGEST_NAME: usize = 255;

/// The ending of the other name under which a file is made.
const ENDING: &str = ".rlibreg-new";

/// The reason why a completed file didn't get its name, or may lose the name.
#[derive(Clone, Copy, Debug, PartialEq, Eq, Error)]
pub enum NameFault {
    /// The file didn't get its name, and it no longer exists.
    #[error("the file can't be given its name")]
    NotGiven,
    /// The file got its name, but a power cut may remove the name.
    #[error("the folder of the file can't be synced")]
    NotSynced,
}

/// The name that a file still has to get. The file stays locked as long as this value exists.
///
/// Until the file gets this name, it has another name in the same folder. Only the process that has
/// locked the file under the other name may give it its own name, or remove the other name.
#[derive(Drop)]
pub struct UnnamedFile<'a> {
    file: File,
    other: String,
    path: &'a str,
}

/// Returns the other name for the file at `path`, or `None` if the path doesn't end in a name.
fn other_name(alloc: Global, path: &str) -> Result<Option<String>, AllocError> {
    let Some(name) = Path::new(path).file_name() else {
        return Ok(None);
    };
    let Some(folder) = path.strip_suffix(name) else {
        return Ok(None);
    };
    let mut other = String::new(alloc);
    other.push_str(folder)?;
    if name.len() + 1 + ENDING.len() <= LONGEST_NAME {
        other.push_str(".")?;
        other.push_str(name)?;
    }
    other.push_str(ENDING)?;
    Ok(Some(other))
}

/// Returns whether `name` is a name of the open file `file`, rather than a symbolic link to it.
fn is_name_of<R: Files>(rt: &R, name: &str, file: &File) -> bool {
    match (fs::symlink_metadata(rt, name), file.metadata()) {
        (Ok(named), Ok(open)) => is_same_file(&named, &open),
        _ => false,
    }
}

/// Removes the other name if a process that has ended left it there. Doesn't write the file,
/// because it may be a complete registry that also has its own name. Doesn't remove a file that is
/// locked or that isn't a regular file.
fn take_leftover<R: Files<File = File>>(rt: &R, other: &str) -> Result<(), OpenFault>
    ensures { IfErr result IsLengthFault }
{
    match fs::symlink_metadata(rt, other) {
        Ok(found) if found.is_file() => {}
        Err(fault) if fault.kind() == ErrorKind::NotFound => return Ok(()),
        _ => return Err(OpenFault::CannotOpen),
    }
    let file = match File::open(rt, other) {
        Ok(file) => file,
        Err(fault) if fault.kind() == ErrorKind::NotFound => return Ok(()),
        Err(_) => return Err(OpenFault::CannotOpen),
    };
    if file.try_lock().is_err() {
        return Err(OpenFault::CannotOpen);
    }
    if is_name_of(rt, other, &file) && fs::remove_file(rt, other).is_err() {
        return Err(OpenFault::CannotOpen);
    }
    Ok(())
}

/// Locks a file that was just made. Returns `None` if another process has locked the file or
/// removed its name, because that process assumed that the file was left over.
fn lock_made<R: Files<File = File>>(
    rt: &R,
    other: &str,
    file: File,
) -> Result<Option<File>, OpenFault>
    ensures { IfErr result IsLengthFault }
{
    match file.try_lock() {
        Ok(()) if is_name_of(rt, other, &file) => Ok(Some(file)),
        Ok(()) | Err(TryLockError::WouldBlock) => Ok(None),
        Err(TryLockError::Error(_)) => {
            // The file can't be locked, although no other process has locked it. Therefore the name
            // is removed.
            if is_name_of(rt, other, &file) {
                let _ = fs::remove_file(rt, other);
            }
            Err(OpenFault::CannotOpen)
        }
    }
}

/// Makes an empty file under the other name and locks it. Never opens an existing file.
fn make_locked<R: Files<File = File>>(rt: &R, other: &str) -> Result<File, OpenFault>
    ensures { IfErr result IsLengthFault }
{
    for _ in 0..TRIES {
        match File::create_new(rt, other) {
            Ok(made) => {
                if let Some(file) = lock_made(rt, other, made)? {
                    return Ok(file);
                }
            }
            Err(fault) if fault.kind() == ErrorKind::AlreadyExists => take_leftover(rt, other)?,
            Err(_) => return Err(OpenFault::CannotOpen),
        }
    }
    Err(OpenFault::CannotOpen)
}

/// Returns whether a hard link was refused because the file system has no hard links.
fn lacks_links(kind: ErrorKind) -> bool {
    matches!(
        kind,
        ErrorKind::PermissionDenied | ErrorKind::Unsupported | ErrorKind::TooManyLinks
    )
}

/// Returns Ok if both calls succeeded, so that the new name is on the medium.
fn both(first: io::Result<()>, second: io::Result<()>) -> Result<(), NameFault> {
    match (first, second) {
        (Ok(()), Ok(())) => Ok(()),
        _ => Err(NameFault::NotSynced),
    }
}

impl<'a> UnnamedFile<'a> {
    /// Makes a file of `bytes` bytes, all zero, under the other name of `path`. No file exists at
    /// `path` yet. Returns the file, open for reading and writing.
    pub(crate) fn make<R: Files<File = File>>(
        rt: &R,
        alloc: Global,
        path: &'a str,
        bytes: u64,
    ) -> Result<(File, UnnamedFile<'a>), OpenFault>
        ensures { IfErr result IsLengthFault }
    {
        let Some(other) = other_name(alloc, path)? else {
            return Err(OpenFault::CannotOpen);
        };
        let file = make_locked(rt, &other)?;
        let name = UnnamedFile { file, other, path };
        match name.fill(bytes) {
            Ok(file) => Ok((file, name)),
            Err(_) => {
                name.take_away(rt);
                Err(OpenFault::CannotOpen)
            }
        }
    }

    fn fill(&self, bytes: u64) -> io::Result<File> {
        self.file.set_len(bytes)?;
        self.file.try_clone()
    }

    /// Removes the other name. When the file is closed, it ceases to exist.
    pub fn take_away<R: Files>(self, rt: &R) {
        let UnnamedFile { file, other, .. } = self;
        if is_name_of(rt, &other, &file) {
            let _ = fs::remove_file(rt, other.as_str());
        }
        drop(file);
    }

    /// Gives the file its own name, unless a file with this name exists, and removes the other
    /// name. Then syncs the folder. The caller must have synced the file itself before.
    pub fn publish<R: Files<File = File>>(self, rt: &R) -> Result<(), NameFault> {
        let Ok(folder) = open_folder(rt, self.path) else {
            return self.refuse(rt);
        };
        if !is_name_of(rt, &self.other, &self.file) {
            return self.refuse(rt);
        }
        match fs::hard_link(rt, self.other.as_str(), self.path) {
            Ok(()) => both(fs::remove_file(rt, self.other.as_str()), folder.sync_all()),
            Err(fault) if lacks_links(fault.kind()) && is_free(rt, self.path) => {
                match fs::rename(rt, self.other.as_str(), self.path) {
                    // FAT stores a file's length with the file's name, so the file is synced too.
                    Ok(()) => both(self.file.sync_all(), folder.sync_all()),
                    Err(_) => self.refuse(rt),
                }
            }
            Err(_) => self.refuse(rt),
        }
    }

    fn refuse<R: Files>(self, rt: &R) -> Result<(), NameFault> {
        self.take_away(rt);
        Err(NameFault::NotGiven)
    }
}
