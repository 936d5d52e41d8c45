// Makes the sectors of a disk with one library, and makes changes to these sectors.
use samples::{library, put};
use sector_disk::SECTOR_BYTES;

/// The contents of a disk of eight sectors.
pub(crate) type Sectors = [[u8; SECTOR_BYTES]; 8];

/// A change to a disk.
#[derive(Clone, Copy)]
pub(crate) enum Harm {
    /// All bytes of the sector with this number become zeros.
    Zeros(usize),
    /// The fields are the number of a sector, an offset in it, and the new value of the byte at
    /// this offset.
    Byte(usize, usize, u8),
}

/// Returns the sectors of a disk of version 1 or 2 whose registry has the library `a`. The
/// library's bytes are in sector 2, its entry in sector 3, the catalogue of version 2 in sector 4,
/// and the root of generation 1 in sector 1.
pub(crate) fn one_library(version: u8) -> Sectors {
    let mut sectors = [[0; SECTOR_BYTES]; 8];
    put(&mut sectors[0], 0, b"RLIBREG1\0\0\0\0\0\0\0\0\x08");
    put(
        &mut sectors[1],
        0,
        b"RLIBREG1\x01\0\0\0\0\0\0\0\x08\0\0\0\x01",
    );
    put(&mut sectors[1], 64, &[3]);
    put(&mut sectors[2], 0, &library(b'a', 0));
    put(&mut sectors[3], 0, b"LIBE\x58\x01\0\0\x01\0\x01\0\0\0\0\0a");
    put(&mut sectors[3], 256, &[2, 0, 0, 0, 1]);
    if version == 2 {
        put(&mut sectors[0], 7, b"2");
        put(&mut sectors[1], 7, b"2");
        put(&mut sectors[1], 56, &[1, 0, 0, 0, 0, 0, 0, 0, 4]);
        put(&mut sectors[4], 0, b"LIBC\x01");
        put(&mut sectors[4], 16, &[3]);
    }
    sectors
}

/// Returns the sectors after these changes.
pub(crate) fn harmed(sectors: &Sectors, harms: &[Harm]) -> Sectors {
    let mut sectors = *sectors;
    for harm in harms {
        match *harm {
            Harm::Zeros(at) => {
                if let Some(sector) = sectors.get_mut(at) {
                    *sector = [0; SECTOR_BYTES];
                }
            }
            Harm::Byte(at, place, to) => {
                if let Some(sector) = sectors.get_mut(at) {
                    put(sector, place, &[to]);
                }
            }
        }
    }
    sectors
}
