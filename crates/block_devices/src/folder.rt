// Reads the files of /proc and the folders of sysfs that describe block devices (proc(5),
// sysfs(5)).

use crate::numbers::Numbers;
use std::alloc::Global;
use std::io::{ErrorKind, Read};
use std::rt::Files;
use std::{fs, io, str};

/// Returns the text of a file, with a replacement character for each sequence of bytes that isn't
/// UTF-8, because a mount point may have such a name.
pub(crate) fn read_text<R: Files>(rt: &R, alloc: Global, path: &str) -> io::Result<String> {
    let bytes = fs::read(&(rt, alloc), path)?;
    Ok(String::from_utf8_lossy(alloc, &bytes)?)
}

/// Returns the device numbers in a file, if the file exists and contains them.
pub(crate) fn numbers_in<R: Files>(
    rt: &R,
    alloc: Global,
    path: &str,
) -> io::Result<Option<Numbers>> {
    match read_text(rt, alloc, path) {
        Ok(text) => Ok(Numbers::parse(text.trim_end())),
        Err(fault) if fault.kind() == ErrorKind::NotFound => Ok(None),
        Err(fault) => Err(fault),
    }
}

/// Returns the path of the file with the name `name` in a folder.
fn path_in(alloc: Global, folder: &str, name: &str) -> io::Result<String> {
    Ok(format!(in alloc; "{folder}/{name}")?)
}

/// Returns whether a folder of sysfs is that of a partition.
fn is_partition<R: Files>(rt: &R, alloc: Global, folder: &str) -> io::Result<bool> {
    let partition = path_in(alloc, folder, "partition")?;
    Ok(fs::metadata(rt, partition.as_str()).is_ok())
}

/// Returns the numbers of the disk to which a partition belongs, or `None` if the device isn't a
/// partition.
pub(crate) fn whole_of<R: Files>(
    rt: &R,
    alloc: Global,
    numbers: Numbers,
) -> io::Result<Option<Numbers>> {
    let folder = numbers.folder(alloc)?;
    if !is_partition(rt, alloc, &folder)? {
        return Ok(None);
    }
    let disk = path_in(alloc, &folder, "../dev")?;
    numbers_in(rt, alloc, &disk)
}

/// Returns the names in a folder, or in the folder to which a link leads. A byte 0 ends each name.
fn names_in<R: Files>(rt: &R, alloc: Global, folder: &str) -> io::Result<Vec<u8>> {
    let inside = path_in(alloc, folder, ".")?;
    let mut found = rt.open_dir(&inside)?;
    let mut names = Vec::new(alloc);
    found.read_to_end(&mut names)?;
    Ok(names)
}

/// Returns whether `names`, the names in a folder, has any name except `.` and `..`. A byte 0 ends
/// each name.
fn has_others(names: &[u8]) -> bool {
    for name in names.split(|byte| *byte == 0) {
        if !matches!(name, b"" | b"." | b"..") {
            return true;
        }
    }
    false
}

/// Returns whether other devices use the device of a folder of sysfs.
fn has_holders<R: Files>(rt: &R, alloc: Global, folder: &str) -> io::Result<bool> {
    let holders = path_in(alloc, folder, "holders")?;
    let names = names_in(rt, alloc, &holders)?;
    Ok(has_others(&names))
}

/// Returns whether a name in the folder of a disk is that of a partition that other devices use.
fn is_held_partition<R: Files>(
    rt: &R,
    alloc: Global,
    folder: &str,
    name: &[u8],
) -> io::Result<bool> {
    let Ok(name) = str::from_utf8(name) else {
        return Ok(false);
    };
    let inside = path_in(alloc, folder, name)?;
    Ok(is_partition(rt, alloc, &inside)? && has_holders(rt, alloc, &inside)?)
}

/// Returns whether one of the names in the folder of a disk is that of a partition that other
/// devices use. A byte 0 ends each name.
fn has_held_partition<R: Files>(
    rt: &R,
    alloc: Global,
    folder: &str,
    names: &[u8],
) -> io::Result<bool> {
    for name in names.split(|byte| *byte == 0) {
        if is_held_partition(rt, alloc, folder, name)? {
            return Ok(true);
        }
    }
    Ok(false)
}

/// Returns whether other devices use the device of a folder of sysfs. Also tests the disk of a
/// partition, and the partitions of a disk.
pub(crate) fn is_folder_held<R: Files>(
    rt: &R,
    alloc: Global,
    folder: &str,
    is_partition: bool,
) -> io::Result<bool> {
    if has_holders(rt, alloc, folder)? {
        return Ok(true);
    }
    if is_partition {
        return has_holders(rt, alloc, &path_in(alloc, folder, "..")?);
    }
    has_held_partition(rt, alloc, folder, &names_in(rt, alloc, folder)?)
}
