// A file of the system, over which a disk is made.

ghost use Rattle.std.specs.Prelude.{◌≡◌, ◌/◌, IfErr, false};
ghost use Rattle.file_disk.specs.Length.{IsLengthFault};
ghost use Rattle.file_disk.specs.SectorFile.{unknown_file};

use crate::open::{OpenFault, sectors_in};
use crate::sector_file::SectorFile;
use sector_disk::SECTOR_BYTES;
use std::fs::{File, OpenFile};
use std::io;
use std::io::{ErrorKind, Seek, SeekFrom};
use std::os::unix::fs::{FileExt, FileTypeExt};

/// The reason why a disk is opened.
#[derive(Clone, Copy)]
pub enum Access {
    /// To read the disk. The file is opened only for reading, so this process can't write into it.
    /// The lock is shared with other readers. Syncs succeed until a sector is written, and fail
    /// from then on.
    Reading,
    /// To change the disk. The lock is exclusive. If the file may not be written, it is opened only
    /// for reading, and syncs succeed until a sector is written.
    Changes,
}

/// A regular file or a block device. It stays open and locked until it is dropped.
#[derive(Drop)]
pub struct DiskFile {
    file: File,
    /// Whether the file is open only for reading.
    is_read_only: bool,
}

impl DiskFile {
    /// Makes a `DiskFile` from an open and locked file. Refuses a file that is neither a regular
    /// file nor a block device.
    pub(crate) fn new(file: File, is_read_only: bool) -> Result<DiskFile, OpenFault>
        ensures { IfErr result IsLengthFault }
    {
        match file.metadata() {
            Ok(found) if found.is_file() || found.file_type().is_block_device() => {
                Ok(DiskFile { file, is_read_only })
            }
            _ => Err(OpenFault::CannotOpen),
        }
    }

    /// Returns the length in bytes, which is the position of the file's end. The metadata of a
    /// block device doesn't contain the length, and reading the metadata of a file takes three
    /// times as long.
    fn length(&mut self) -> io::Result<u64> {
        self.file.seek(SeekFrom::End(0))
    }
}

/// Returns whether a sync failed because the file system is read-only and has no sync. If a failure
/// made the file system read-only, it has a sync, and reports another error.
fn has_no_sync(fault: &io::Error) -> bool {
    fault.kind() == ErrorKind::InvalidInput
}

/// Returns the number of whole sectors in `bytes`, the number of bytes that a call moved. A call
/// moves a part of a sector if the file ends within the sector or can't grow any more; this part
/// isn't counted.
fn whole_sectors(bytes: usize) -> usize
    ensures { result ≡ bytes / 512 }
{
    bytes / SECTOR_BYTES
}

/// Returns the position of the first byte of sector `at`.
fn place_of(at: u32) -> u64 {
    u64::from(at) * SECTOR_BYTES as u64
}

/// No clause states whether a `DiskFile` is honest.
impl SectorFile for DiskFile {
    ghost is_honest = { false };

    ghost facts = { λ file. unknown_file };

    ghost holds_now = { λ file honest. Prim.cc };

    ghost whole_sectors = { λ file honest. Prim.cc };

    fn count_sectors(&mut self) -> Result<u32, OpenFault> {
        let Ok(length) = self.length() else {
            return Err(OpenFault::CannotOpen);
        };
        match sectors_in(length) {
            Some(sectors) => Ok(sectors),
            None => Err(OpenFault::BadLength(length)),
        }
    }

    fn read_at(&mut self, at: u32, into: &mut [[u8; SECTOR_BYTES]]) -> io::Result<usize> {
        let bytes = self.file.read_at(into.as_flattened_mut(), place_of(at))?;
        Ok(whole_sectors(bytes))
    }

    fn write_at(&mut self, at: u32, from: &[[u8; SECTOR_BYTES]]) -> io::Result<usize> {
        let bytes = self.file.write_at(from.as_flattened(), place_of(at))?;
        Ok(whole_sectors(bytes))
    }

    /// Syncs the file. Succeeds without a sync if the file is open only for reading, on a read-only
    /// file system, because then there is nothing to sync.
    fn sync(&mut self) -> io::Result<()> {
        match self.file.sync_all() {
            Err(fault) if self.is_read_only && has_no_sync(&fault) => Ok(()),
            answer => answer,
        }
    }
}
