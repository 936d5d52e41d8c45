// The steps of a plan.

use sector_disk::SECTOR_BYTES;

/// A step of a plan.
#[derive(Clone, Copy)]
pub enum Step {
    /// A sector is written.
    Write {
        /// The number of the sector.
        at: u32,
        /// The content that is written to the sector.
        content: [u8; SECTOR_BYTES],
    },
    /// All written contents are brought to the medium.
    Sync,
}
