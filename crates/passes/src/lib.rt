//! The two passes of a change. The first pass stages new content in sectors that nothing reads yet.
//! The second pass is a single write that makes this content current.
//!
//! The passes know only disks, places and bytes. A stop during the first pass leaves a mixture that
//! a stop before this pass could leave, except in the staged sectors. A stop during the second pass
//! leaves contents that a stop before this pass could leave, or the same contents with the new
//! content of one sector.
#![tactic(auto)]

mod pass;
mod read;
mod run;
mod single;
mod write;

pub use pass::{stage, switch_root, write_unsynced};
pub use read::read_bytes;
pub use single::SingleSector;
pub use write::write_bytes;
