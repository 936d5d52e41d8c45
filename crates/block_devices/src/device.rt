// Finds out whether a block device is in use.

use crate::folder::{is_folder_held, read_text, whole_of};
use crate::numbers::Numbers;
use std::alloc::Global;
use std::fs::File;
use std::io::ErrorKind;
use std::os::unix::fs::{FileTypeExt, MetadataExt};
use std::rt::Files;
use std::{fs, io};

/// The mounted file systems, one on each line. The third field has the numbers of the device, and
/// the second field after a single `-` has the device's path (proc(5)).
const MOUNTS: &str = "/proc/self/mountinfo";

/// The swap areas, one on each line after the first line. Each line begins with the path of the
/// area (proc(5)).
const SWAPS: &str = "/proc/swaps";

/// A block device.
#[derive(Clone, Copy)]
struct Device {
    numbers: Numbers,
    /// The numbers of the disk to which this device belongs, if the device is a partition.
    whole: Option<Numbers>,
}

impl Device {
    fn new<R: Files>(rt: &R, alloc: Global, rdev: u64) -> io::Result<Device> {
        let numbers = Numbers::new(rdev);
        let whole = whole_of(rt, alloc, numbers)?;
        Ok(Device { numbers, whole })
    }

    /// Returns whether the device shares sectors with another device: both are the same, or one is
    /// a partition of the other.
    fn meets<R: Files>(self, rt: &R, alloc: Global, other: Numbers) -> io::Result<bool> {
        if other == self.numbers || self.whole == Some(other) {
            return Ok(true);
        }
        Ok(whole_of(rt, alloc, other)? == Some(self.numbers))
    }

    /// Returns whether the device shares sectors with the block device to which `path` leads.
    fn meets_path<R: Files>(self, rt: &R, alloc: Global, path: &str) -> io::Result<bool> {
        match fs::metadata(rt, path) {
            Ok(found) if path.starts_with('/') && found.file_type().is_block_device() => {
                self.meets(rt, alloc, Numbers::new(found.rdev()))
            }
            _ => Ok(false),
        }
    }

    /// Returns whether a line of the mounted file systems names the device.
    fn is_mounted_by<R: Files>(self, rt: &R, alloc: Global, line: &str) -> io::Result<bool> {
        if let Some(numbers) = line.split(' ').nth(2).and_then(Numbers::parse) {
            if self.meets(rt, alloc, numbers)? {
                return Ok(true);
            }
        }
        let source = line
            .split_once(" - ")
            .and_then(|(_, rest)| rest.split(' ').nth(1));
        match source {
            Some(path) => self.meets_path(rt, alloc, path),
            None => Ok(false),
        }
    }

    /// Returns whether one of the file systems that `mounts` lists is on the device.
    fn has_mounted<R: Files>(self, rt: &R, alloc: Global, mounts: &str) -> io::Result<bool> {
        for line in mounts.lines() {
            if self.is_mounted_by(rt, alloc, line)? {
                return Ok(true);
            }
        }
        Ok(false)
    }

    fn is_mounted<R: Files>(self, rt: &R, alloc: Global) -> io::Result<bool> {
        let mounts = read_text(rt, alloc, MOUNTS)?;
        self.has_mounted(rt, alloc, &mounts)
    }

    /// Returns whether one of the lines of `swaps` begins with a path that leads to the device.
    fn has_swap<R: Files>(self, rt: &R, alloc: Global, swaps: &str) -> io::Result<bool> {
        for line in swaps.lines() {
            if let Some(path) = line.split(' ').next() {
                if self.meets_path(rt, alloc, path)? {
                    return Ok(true);
                }
            }
        }
        Ok(false)
    }

    fn is_swapped_to<R: Files>(self, rt: &R, alloc: Global) -> io::Result<bool> {
        match read_text(rt, alloc, SWAPS) {
            Ok(swaps) => self.has_swap(rt, alloc, &swaps),
            Err(fault) if fault.kind() == ErrorKind::NotFound => Ok(false),
            Err(fault) => Err(fault),
        }
    }

    /// Returns whether other devices use the device, its disk or its partitions.
    fn is_held<R: Files>(self, rt: &R, alloc: Global) -> io::Result<bool> {
        let folder = self.numbers.folder(alloc)?;
        is_folder_held(rt, alloc, &folder, self.whole.is_some())
    }
}

/// Returns whether the block device with the number `rdev` (`st_rdev` of stat(2)) is in use: it,
/// its disk or one of its partitions is mounted, is a swap area, or is used by another device. An
/// error means that a file or folder of /proc or /sys can't be read, or that memory was refused.
pub fn is_in_use<R: Files<File = File>>(rt: &R, alloc: Global, rdev: u64) -> io::Result<bool> {
    let device = Device::new(rt, alloc, rdev)?;
    Ok(
        device.is_mounted(rt, alloc)?
            || device.is_swapped_to(rt, alloc)?
            || device.is_held(rt, alloc)?,
    )
}
