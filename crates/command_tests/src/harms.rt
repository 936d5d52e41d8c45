// Changes to a disk of eight sectors with the library `a`, and the results of a liar that returns
// the changed sectors.
use crate::sectors::Harm;
use crate::sectors::Harm::{Byte, Zeros};
use store::StoreRefusal;

/// The refusal of a liar, or the result of the script over its registry: the answers to the first
/// three lines, and how many of all lines are refused.
pub(crate) type Wanted = Result<(&'static str, u64), StoreRefusal>;

const S3: Wanted = Err(StoreRefusal::NotFormatted);

const S4: Wanted = Err(StoreRefusal::AlreadyFormatted);

const S5: Wanted = Err(StoreRefusal::Damaged);

// The library `a` is listed. The second read of its bytes returns zeros.
const HELD: Wanted = Ok((
    "library a 344\nend\nrefused S5 Damaged\nrefused C2 AlreadyInstalled\n",
    9,
));

const EMPTY: Wanted = Ok(("end\nrefused B3 Missing /program a\nok\n", 8));

/// The changes that are made to the disk, and the results of three liars that return the changed
/// sectors. The first two are opened, or upgraded if the sectors are of version 1: one returns the
/// sectors in the order of the disk, the other in the order in which they are read. The third is
/// formatted.
pub(crate) type Row = (&'static [Harm], &'static [Wanted; 3]);

// The results of a damaged disk, for any order in which a liar returns its sectors.
const DAMAGED: &[Wanted; 3] = &[S5, S5, S4];

/// Rows for disks of version 1 and of version 2. In the order of the disk, the first sector of the
/// file is read as the entry or as the catalogue.
pub(crate) static ROWS: [Row; 9] = [
    (&[], &[S5, HELD, S4]),
    // The disk has only one root, or none.
    (&[Zeros(1)], &[EMPTY, EMPTY, S4]),
    (&[Zeros(0)], DAMAGED),
    (&[Zeros(0), Zeros(1)], &[S3, S3, EMPTY]),
    // The root has nine sectors, or lists a sector past the end of the disk.
    (&[Byte(1, 16, 9)], DAMAGED),
    (&[Byte(1, 64, 8)], DAMAGED),
    // The entry lists its own sector as the file's.
    (&[Byte(3, 256, 3)], DAMAGED),
    // The file is listed under another name, or isn't a library.
    (&[Byte(3, 16, b'b')], DAMAGED),
    (&[Zeros(2)], DAMAGED),
];

/// Rows for disks of version 2 only.
pub(crate) static NEW_ROWS: [Row; 9] = [
    // The root has no catalogue, has two, or lists the entry as its catalogue; or it is a root of
    // version 1.
    (&[Byte(1, 56, 0)], DAMAGED),
    (&[Byte(1, 56, 2)], DAMAGED),
    (&[Byte(1, 64, 3)], DAMAGED),
    (&[Byte(1, 7, b'1')], DAMAGED),
    // The catalogue isn't a catalogue, or lists two entries, or an entry past the end of the disk,
    // or itself.
    (&[Zeros(4)], DAMAGED),
    (&[Byte(4, 4, 2), Byte(4, 20, 5)], DAMAGED),
    (&[Byte(4, 16, 8)], DAMAGED),
    (&[Byte(4, 16, 4)], DAMAGED),
    // The entry lists the catalogue's sector as the file's.
    (&[Byte(3, 256, 4)], DAMAGED),
];
