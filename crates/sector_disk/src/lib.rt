//! A disk of sectors, and the contents that a power cut may leave on it.
//!
//! `Disk` is the only contract on which everything above it relies. Until a sync succeeds, a stop
//! may leave each sector with its synced content, or with any content that was written to it since.
//! `Memory` is such a disk in memory, which can be stopped at any moment. `Fuse` is a disk that
//! fails at a planned call. `Liar` is a disk that returns planned answers and stores nothing.
#![tactic(auto)]

mod call_count;
mod choices;
mod disk;
mod fuse;
mod liar;
mod memory;
mod moment;
mod past;
mod written;

pub use call_count::CallCount;
pub use disk::{Disk, DiskFault, SECTOR_BYTES};
pub use fuse::Fuse;
pub use liar::Liar;
pub use memory::Memory;
pub use past::Past;
