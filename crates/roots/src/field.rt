//! Values of a fixed number of bytes, and arrays of such values, at their places in a sector.

ghost use Rattle.std.specs.Prelude.{◌≡◌, ℕ, List, ◌+◌, ◌*◌, ◌≤◌, ◌++◌, length, drop};
ghost use Rattle.std.specs.Int.{w16, w32, w64, to_le_bytes, from_le_bytes};
ghost use Rattle.sector_disk.specs.Disk.{sector_bytes};
ghost use Rattle.roots.specs.Entry.{extent_bytes};
ghost use Rattle.roots.specs.inside.Reading.{values_at, extent_of};

use crate::writer::SectorWriter;
use extents::Extent;
use sector_disk::SECTOR_BYTES;

/// A value that has a fixed number of bytes in a sector.
pub(crate) trait Field: Copy + Default {
    /// The number of bytes of a value.
    const BYTES: usize;

    ghost BYTES: { ℕ };

    // The value that the first bytes of a list encode.
    ghost read: { List ℕ → Self };

    // The bytes that encode a value.
    ghost spell: { Self → List ℕ };

    /// Returns the value whose bytes begin at offset `at` of the sector.
    fn read_at(sector: &[u8; SECTOR_BYTES], at: usize) -> Self
        requires { at + BYTES ≤ sector_bytes }
        ensures { result ≡ read (drop at sector.now) };

    /// Appends the value's bytes to the fields that have already been written.
    fn put_to(self, sector: &mut SectorWriter)
        requires { length sector.old + BYTES ≤ sector_bytes }
        ensures fields { sector.new ≡ sector.old ++ spell self }
        ensures len { length sector.new ≡ length sector.old + BYTES };
}

impl Field for u16 {
    const BYTES: usize = 2;

    ghost BYTES = { 2 };

    ghost read = { from_le_bytes w16 };

    ghost spell = { to_le_bytes w16 };

    fn read_at(sector: &[u8; SECTOR_BYTES], at: usize) -> u16 {
        u16::from_le_bytes([sector[at], sector[at + 1]])
    }

    fn put_to(self, sector: &mut SectorWriter) {
        sector.put(&self.to_le_bytes());
    }
}

impl Field for u32 {
    const BYTES: usize = 4;

    ghost BYTES = { 4 };

    ghost read = { from_le_bytes w32 };

    ghost spell = { to_le_bytes w32 };

    fn read_at(sector: &[u8; SECTOR_BYTES], at: usize) -> u32 {
        u32::from_le_bytes([sector[at], sector[at + 1], sector[at + 2], sector[at + 3]])
    }

    fn put_to(self, sector: &mut SectorWriter) {
        sector.put(&self.to_le_bytes());
    }
}

impl Field for u64 {
    const BYTES: usize = 8;

    ghost BYTES = { 8 };

    ghost read = { from_le_bytes w64 };

    ghost spell = { to_le_bytes w64 };

    fn read_at(sector: &[u8; SECTOR_BYTES], at: usize) -> u64 {
        u64::from_le_bytes([
            sector[at],
            sector[at + 1],
            sector[at + 2],
            sector[at + 3],
            sector[at + 4],
            sector[at + 5],
            sector[at + 6],
            sector[at + 7],
        ])
    }

    fn put_to(self, sector: &mut SectorWriter) {
        sector.put(&self.to_le_bytes());
    }
}

impl Field for Extent {
    const BYTES: usize = 8;

    ghost BYTES = { 8 };

    ghost read = { extent_of };

    ghost spell = { extent_bytes };

    fn read_at(sector: &[u8; SECTOR_BYTES], at: usize) -> Extent {
        Extent {
            start: u32::read_at(sector, at),
            count: u32::read_at(sector, at + 4),
        }
    }

    fn put_to(self, sector: &mut SectorWriter) {
        self.start.put_to(sector);
        self.count.put_to(sector);
    }
}

/// Returns `N` values, one after the other, whose bytes begin at offset `at` of the sector.
pub(crate) fn values_at<T: Field, const N: usize>(sector: &[u8; SECTOR_BYTES], at: usize) -> [T; N]
    requires { at + T.BYTES * N ≤ sector_bytes }
    ensures { result ≡ values_at T.read T.BYTES N at sector.now }
{
    let mut values = [T::default(); N];
    for i in 0..N {
        values[i] = T::read_at(sector, at + T::BYTES * i);
    }
    values
}
