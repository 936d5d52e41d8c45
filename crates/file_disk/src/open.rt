// Opens and makes the file of a disk.
ghost use Rattle.std.specs.Prelude.{◌≡◌, ◌*◌, IfOk, IfErr, IfSome, IfNone};
ghost use Rattle.std.specs.Prelude.{false, IsTrue, MatchResult};
ghost use Rattle.file_disk.specs.FileDisk.{file_facts, IsNew, IsAsTheFile, IsOver, HasCause};
ghost use Rattle.file_disk.specs.FileDisk.{StartsAsFound};
ghost use Rattle.file_disk.specs.Length.{IsDiskLength, IsLengthFault, IsOtherLength};
ghost use Rattle.file_disk.specs.declared.open.OpenFault.TheVariants.{BadLength, OutOfMemory};

use crate::disk::FileDisk;
use crate::disk_file::{Access, DiskFile};
use crate::locked::open_locked;
use crate::sector_file::SectorFile;
use crate::unnamed_file::UnnamedFile;
use sector_disk::{Disk, SECTOR_BYTES};
use std::alloc::{AllocError, Global};
use std::fs::File;
use std::io::ErrorKind;
use std::path::Path;
use std::rt::{Clock, Files};
use std::{fs, io};
use thiserror::Error;

/// The reason why a file isn't opened as a disk.
#[derive(Clone, Copy, Debug, PartialEq, Eq, Error)]
pub enum OpenFault {
    /// The file can't be opened, locked, made or measured; or it is neither a regular file nor a
    /// block device; or it is a device in use.
    #[error("the file can't be opened")]
    CannotOpen,
    /// The file's length isn't the length of a disk, or isn't the requested length. Has the length
    /// in bytes, which isn't a multiple of 512, isn't the requested number of sectors, or is 2^32
    /// sectors or more.
    #[error("the file hasn't the length of a disk")]
    BadLength(u64),
    /// Memory was refused.
    #[error("out of memory")]
    OutOfMemory,
}

impl From<AllocError> for OpenFault {
    ghost from_gives = { λ _ fault. fault ≡ OutOfMemory };

    fn from(_refused: AllocError) -> OpenFault {
        OpenFault::OutOfMemory
    }
}

/// Returns the number of sectors of a file of `length` bytes, or `None` if this isn't a whole
/// number, or is 2^32 or more.
pub(crate) fn sectors_in(length: u64) -> Option<u32>
    ensures some { IfSome result (λ sectors. length ≡ 512 * sectors) }
    ensures none { IfNone result (IsDiskLength length → ⊥) }
{
    if length % SECTOR_BYTES as u64 == 0 {
        u32::try_from(length / SECTOR_BYTES as u64).ok()
    } else {
        None
    }
}

/// Returns the fault of a file that is a disk, but with another number of sectors than requested.
fn other_length(disk: &FileDisk<DiskFile>) -> OpenFault
    ensures { result ≡ BadLength (512 * (file_facts disk.now).sectors) }
{
    OpenFault::BadLength(u64::from(disk.sectors()) * SECTOR_BYTES as u64)
}

/// Opens the folder that contains the file of `path`.
pub(crate) fn open_folder<R: Files<File = File>>(rt: &R, path: &str) -> io::Result<File> {
    let folder = match Path::new(path).parent() {
        Some(folder) if !folder.as_str().is_empty() => folder.as_str(),
        _ => ".",
    };
    File::open(rt, folder)
}

/// Syncs the folder of a file, so that the file's name is on the medium.
fn sync_folder<R: Files<File = File>>(rt: &R, path: &str) -> Result<(), OpenFault>
    ensures { IfErr result IsLengthFault }
{
    match open_folder(rt, path) {
        Ok(folder) if folder.sync_all().is_ok() => Ok(()),
        _ => Err(OpenFault::CannotOpen),
    }
}

/// Returns whether nothing has the name, not even a symbolic link.
pub(crate) fn is_free<R: Files>(rt: &R, path: &str) -> bool {
    match fs::symlink_metadata(rt, path) {
        Err(fault) => fault.kind() == ErrorKind::NotFound,
        Ok(_) => false,
    }
}

impl<F: SectorFile + Drop> FileDisk<F> {
    /// Makes a disk over an open file. The disk has the number of sectors that the file has now.
    pub fn over(alloc: Global, file: F) -> Result<FileDisk<F>, OpenFault>
        requires { IsTrue F.is_honest → (F.facts file).sync_failed ≡ false }
        ensures new { IfOk result (λ disk. IsNew disk) }
        ensures file { IsTrue F.is_honest → IfOk result (λ disk. IsOver file disk) }
        ensures starts { IsTrue F.is_honest → IfOk result (λ disk. IsAsTheFile disk) }

        // Over a file that was found after a stop, the disk starts with the sectors of the file's
        // medium.
        ensures reopen { IsTrue F.is_honest → IfOk result (λ disk. StartsAsFound file disk) }

        // The call fails only if memory is refused or the file's sectors can't be counted.
        ensures cause { IsTrue F.is_honest → IfErr result (λ fault. HasCause F.facts file fault) }

        // A file, honest or not, is refused for its length only if no disk has this length.
        ensures length { IfErr result IsLengthFault }
    {
        let mut file = file;
        let sectors = file.count_sectors()?;
        Ok(FileDisk::new(alloc, file, sectors)?)
    }
}

/// The disk that `make` returns: a new disk of zeros, which still has to get its name, or a disk
/// over an existing file.
#[derive(Drop)]
pub struct Made<'a> {
    /// The disk.
    pub disk: FileDisk<DiskFile>,
    /// The name that the file still has to get, if the file is new.
    pub name: Option<UnnamedFile<'a>>,
}

impl FileDisk<DiskFile> {
    /// Opens a regular file or a block device as a disk, for `access`. The file stays locked until
    /// the disk is dropped.
    pub fn open<R: Files<File = File> + Clock>(
        rt: &R,
        alloc: Global,
        path: &str,
        access: Access,
    ) -> Result<FileDisk<DiskFile>, OpenFault>
        ensures { MatchResult result (λ disk. IsNew disk) IsLengthFault }
    {
        FileDisk::over(alloc, open_locked(rt, alloc, path, access)?)
    }

    /// Opens the file at `path` as a disk of `sectors` sectors, for changes, and syncs its folder,
    /// so that the file's name is on the medium. If no file exists at `path`, makes a disk of zeros
    /// over a file without a name. The caller then has to sync this disk, and to name the file with
    /// `UnnamedFile::publish`.
    pub fn make<'a, R: Files<File = File> + Clock>(
        rt: &R,
        alloc: Global,
        path: &'a str,
        sectors: u32,
    ) -> Result<Made<'a>, OpenFault>
        ensures new { IfOk result (λ made. IsNew made.disk) }
        ensures sectors { IfOk result (λ made. (file_facts made.disk).sectors ≡ sectors) }

        // A file is refused for its length only if the length isn't that of `sectors` sectors.
        ensures length { IfErr result (IsOtherLength sectors) }
    {
        if is_free(rt, path) {
            return make_new(rt, alloc, path, sectors);
        }
        let disk = FileDisk::open(rt, alloc, path, Access::Changes)?;
        if disk.sectors() != sectors {
            return Err(other_length(&disk));
        }
        sync_folder(rt, path)?;
        Ok(Made { disk, name: None })
    }
}

/// Makes a disk of zeros over a new file, which still has to get its name.
fn make_new<'a, R: Files<File = File>>(
    rt: &R,
    alloc: Global,
    path: &'a str,
    sectors: u32,
) -> Result<Made<'a>, OpenFault>
    ensures new { IfOk result (λ made. IsNew made.disk) }
    ensures sectors { IfOk result (λ made. (file_facts made.disk).sectors ≡ sectors) }
    ensures length { IfErr result (IsOtherLength sectors) }
{
    let length = u64::from(sectors) * SECTOR_BYTES as u64;
    let (file, name) = UnnamedFile::make(rt, alloc, path, length)?;
    match over_made(alloc, file, sectors) {
        Ok(disk) => Ok(Made {
            disk,
            name: Some(name),
        }),
        Err(fault) => {
            name.take_away(rt);
            Err(fault)
        }
    }
}

/// Makes a disk over a file that was just made.
fn over_made(alloc: Global, file: File, sectors: u32) -> Result<FileDisk<DiskFile>, OpenFault>
    ensures new { IfOk result (λ disk. IsNew disk) }
    ensures sectors { IfOk result (λ disk. (file_facts disk).sectors ≡ sectors) }
    ensures length { IfErr result (IsOtherLength sectors) }
{
    let disk = FileDisk::over(alloc, DiskFile::new(file, false)?)?;
    if disk.sectors() != sectors {
        return Err(other_length(&disk));
    }
    Ok(disk)
}
