//! A disk of sectors over a file.
//!
//! `FileDisk` is a `Disk` over a `SectorFile`. It is honest if the file is honest. It buffers
//! adjacent sectors and writes them together, and it reads sectors ahead. A sync of the disk is a
//! sync of the file. After a failed write or sync, all later writes and syncs fail until the file
//! is opened again.
#![tactic(auto)]

mod buffered;
mod disk;
mod disk_file;
mod locked;
mod medium;
mod memory_file;
mod open;
mod property;
mod read_ahead;
mod sector_file;
mod transfer;
mod unnamed_file;
mod write_buffer;

pub use disk::FileDisk;
pub use disk_file::{Access, DiskFile};
pub use memory_file::{CallOutcome, FilePlan, MemoryFile};
pub use open::{Made, OpenFault};
pub use property::Property;
pub use sector_file::SectorFile;
pub use unnamed_file::{NameFault, UnnamedFile};
