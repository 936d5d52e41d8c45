// Opens a file and locks it.

ghost use Rattle.std.specs.Prelude.{◌≡◌, IfErr, true};
ghost use Rattle.std.specs.Fs.{new_options, with_read, with_write};
ghost use Rattle.file_disk.specs.Length.{IsLengthFault};

use crate::disk_file::{Access, DiskFile};
use crate::open::OpenFault;
use block_devices::is_in_use;
use std::alloc::Global;
use std::fs::{File, Metadata, OpenOptions, TryLockError};
use std::io::ErrorKind;
use std::os::unix::fs::{FileTypeExt, MetadataExt};
use std::rt::{Clock, Files};
use std::thread::sleep;
use std::time::Duration;
use std::{fs, io};

/// The maximum number of attempts to open a file, if other processes replace it before it is
/// locked. Also the maximum number of attempts to make a file under another name, if other
/// processes make and remove that name.
pub(crate) const TRIES: u32 = 16;

/// The number of attempts to lock a device, and the milliseconds between two attempts: two seconds
/// in all. The system's udev locks the device for a moment after each writer has closed it.
const DEVICE_TRIES: u32 = 200;

const PAUSE: u64 = 10;

/// Returns the options to open an existing file only for reading.
fn reading() -> OpenOptions
    ensures { result ≡ with_read new_options true }
{
    let mut how = OpenOptions::new();
    how.read(true);
    how
}

/// Returns the options to open an existing file for reading and writing, without creating or
/// truncating it.
fn writing() -> OpenOptions
    ensures { result ≡ with_write (with_read new_options true) true }
{
    let mut how = reading();
    how.write(true);
    how
}

/// Returns whether an error means that writing isn't permitted.
fn is_denied(kind: ErrorKind) -> bool {
    matches!(
        kind,
        ErrorKind::PermissionDenied | ErrorKind::ReadOnlyFilesystem
    )
}

/// Opens a file for `access`, or only for reading if writing isn't permitted. Also returns whether
/// the file is open only for reading.
fn open_file<R: Files<File = File>>(
    rt: &R,
    path: &str,
    access: Access,
) -> io::Result<(File, bool)> {
    if let Access::Changes = access {
        match writing().open(rt, path) {
            Ok(file) => return Ok((file, false)),
            Err(fault) if !is_denied(fault.kind()) => return Err(fault),
            Err(_) => {}
        }
    }
    Ok((reading().open(rt, path)?, true))
}

/// Returns whether two names or descriptors lead to the same file.
pub(crate) fn is_same_file(one: &Metadata, other: &Metadata) -> bool {
    one.dev() == other.dev() && one.ino() == other.ino()
}

/// Locks a file without waiting: shared with other readers if `access` is for reading, and
/// exclusively if it is for changes.
fn try_lock(file: &File, access: Access) -> Result<(), TryLockError> {
    match access {
        Access::Reading => file.try_lock_shared(),
        Access::Changes => file.try_lock(),
    }
}

/// Locks a file. If the file is a device that is opened for changes, retries for two seconds.
/// Otherwise makes one attempt.
fn lock<R: Clock>(rt: &R, file: &File, access: Access, is_device: bool) -> Result<(), OpenFault>
    ensures { IfErr result IsLengthFault }
{
    let tries = match access {
        Access::Changes if is_device => DEVICE_TRIES,
        _ => 0,
    };
    for _ in 0..tries {
        match try_lock(file, access) {
            Ok(()) => return Ok(()),
            Err(TryLockError::WouldBlock) => sleep(rt, Duration::from_millis(PAUSE)),
            Err(TryLockError::Error(_)) => return Err(OpenFault::CannotOpen),
        }
    }
    match try_lock(file, access) {
        Ok(()) => Ok(()),
        Err(_) => Err(OpenFault::CannotOpen),
    }
}

/// Refuses a path that leads to neither a regular file nor a block device, before the path is
/// opened. To open a pipe would mean to wait for its other end.
fn check_kind<R: Files>(rt: &R, path: &str) -> Result<(), OpenFault>
    ensures { IfErr result IsLengthFault }
{
    match fs::metadata(rt, path) {
        Ok(found) if found.is_file() || found.file_type().is_block_device() => Ok(()),
        _ => Err(OpenFault::CannotOpen),
    }
}

/// Returns whether a path leads to an open file.
fn leads_to<R: Files>(rt: &R, path: &str, open: &Metadata) -> bool {
    match fs::metadata(rt, path) {
        Ok(named) => is_same_file(&named, open),
        Err(_) => false,
    }
}

/// Opens a regular file or a block device and locks it. If the file was replaced before it was
/// locked, opens the path again. Doesn't open a device that is in use for changes.
pub(crate) fn open_locked<R: Files<File = File> + Clock>(
    rt: &R,
    alloc: Global,
    path: &str,
    access: Access,
) -> Result<DiskFile, OpenFault>
    ensures { IfErr result IsLengthFault }
{
    for _ in 0..TRIES {
        check_kind(rt, path)?;
        let Ok((file, is_read_only)) = open_file(rt, path, access) else {
            return Err(OpenFault::CannotOpen);
        };
        let Ok(found) = file.metadata() else {
            return Err(OpenFault::CannotOpen);
        };
        let is_device = found.file_type().is_block_device();
        lock(rt, &file, access, is_device)?;
        if !leads_to(rt, path, &found) {
            continue;
        }
        if let (Access::Changes, true) = (access, is_device) {
            refuse_in_use(rt, alloc, found.rdev())?;
        }
        return DiskFile::new(file, is_read_only);
    }
    Err(OpenFault::CannotOpen)
}

/// Refuses the device with the number `rdev` if it is in use.
fn refuse_in_use<R: Files<File = File>>(rt: &R, alloc: Global, rdev: u64) -> Result<(), OpenFault>
    ensures { IfErr result IsLengthFault }
{
    match is_in_use(rt, alloc, rdev) {
        Ok(false) => Ok(()),
        Err(fault) if fault.kind() == ErrorKind::OutOfMemory => Err(OpenFault::OutOfMemory),
        _ => Err(OpenFault::CannotOpen),
    }
}
