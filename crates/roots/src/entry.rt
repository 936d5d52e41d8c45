//! The value that an entry sector encodes.

ghost use Rattle.std.specs.Prelude.{◌≡◌, ◌↔◌, ◌≤◌, IsTrue, length, sum_by};
ghost use Rattle.extents.specs.Limits.{most_extents};
ghost use Rattle.roots.specs.Entry.{EntryHasSpelling, NameFits, ExtentsFit};
ghost use Rattle.roots.specs.Limits.{most_name_bytes};
ghost use Rattle.roots.specs.Entry.{IsNameByte, IsDataExtent};
ghost use Rattle.roots.specs.Entry.{entry_of_file, name_of, extents_of};

use crate::limits::{LEAST_FILE_BYTES, MOST_FILE_BYTES, MOST_NAME_BYTES};
use crate::lists::placed;
use extents::{Extent, MOST_EXTENTS, MOST_SECTORS, ROOT_SECTORS};
use sector_disk::SECTOR_BYTES;

/// A library's entry: its name, and the place of its file. If the entry can be encoded, the unused
/// places of `name` and of `extents` are zero.
#[derive(Clone, Copy, PartialEq, Eq)]
pub struct Entry {
    /// The length of the file in bytes.
    pub file_length: u32,
    /// The length of the name in bytes.
    pub name_length: u16,
    /// The number of extents of the file.
    pub extent_count: u16,
    /// The name, in visible ASCII without `/`.
    pub name: [u8; MOST_NAME_BYTES],
    /// The extents of the file, in the order of the file.
    pub extents: [Extent; MOST_EXTENTS],
}

impl Entry {
    /// Returns the entry of a file of `file_length` bytes, with this name and these extents.
    pub fn new(name: &[u8], file_length: u32, extents: &[Extent]) -> Entry
        requires short_name { length name.now ≤ most_name_bytes }
        requires few_extents { length extents.now ≤ most_extents }
        ensures value { result ≡ entry_of_file name.now file_length extents.now }
        ensures name { name_of result ≡ name.now }
        ensures extents { extents_of result ≡ extents.now }
    {
        Entry {
            file_length,
            name_length: name.len() as u16,
            extent_count: extents.len() as u16,
            name: placed(name, 0),
            extents: placed(extents, Extent { start: 0, count: 0 }),
        }
    }

    /// Returns the bytes of the name.
    pub fn name_bytes(&self) -> &[u8]
        requires { EntryHasSpelling self.now }
        ensures { result.now ≡ name_of self.now }
    {
        &self.name[..usize::from(self.name_length)]
    }

    /// Returns the extents of the file, in the order of the file.
    pub fn file_extents(&self) -> &[Extent]
        requires { EntryHasSpelling self.now }
        ensures { result.now ≡ extents_of self.now }
    {
        &self.extents[..usize::from(self.extent_count)]
    }

    /// Returns whether each field is within the format's limits, so that a sector can encode this
    /// entry.
    pub fn has_spelling(&self) -> bool
        ensures { IsTrue result ↔ EntryHasSpelling self.now }
    {
        (LEAST_FILE_BYTES..=MOST_FILE_BYTES).contains(&self.file_length)
            && self.name_fits()
            && self.extents_fit()
    }

    fn name_fits(&self) -> bool
        ensures { IsTrue result ↔ NameFits self.now }
    {
        let length = usize::from(self.name_length);
        if length < 1 || length > MOST_NAME_BYTES {
            return false;
        }
        let (used, rest) = self.name.split_at(length);
        used.iter().all(|byte| is_name_byte(*byte)) && rest.iter().all(|unused| *unused == 0)
    }

    fn extents_fit(&self) -> bool
        ensures { IsTrue result ↔ ExtentsFit self.now }
    {
        let count = usize::from(self.extent_count);
        if count < 1 || count > MOST_EXTENTS {
            return false;
        }
        let (used, rest) = self.extents.split_at(count);
        used.iter().all(|extent| is_data_extent(*extent))
            && rest
                .iter()
                .all(|unused| unused.start == 0 && unused.count == 0)
            && sector_count(used) == u64::from(self.file_length.div_ceil(SECTOR_BYTES as u32))
    }
}

fn is_name_byte(byte: u8) -> bool
    ensures { IsTrue result ↔ IsNameByte byte }
{
    byte.is_ascii_graphic() && byte != b'/'
}

fn is_data_extent(extent: Extent) -> bool
    ensures { IsTrue result ↔ IsDataExtent extent }
{
    ROOT_SECTORS <= extent.start
        && 1 <= extent.count
        && u64::from(extent.start) + u64::from(extent.count) <= u64::from(MOST_SECTORS)
}

fn sector_count(extents: &[Extent]) -> u64
    requires { length extents.now ≤ most_extents }
    ensures { result ≡ sum_by (λ extent. extent.count) extents.now }
{
    extents.iter().map(|extent| u64::from(extent.count)).sum()
}
