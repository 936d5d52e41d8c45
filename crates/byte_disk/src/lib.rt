//! A disk over given bytes, which stores all changes as a plan.
//!
//! `ByteDisk` is a `Disk` whose sectors are the bytes of a disk's file. It doesn't change these
//! bytes. It stores its writes and syncs, in the order of the calls, as steps that a caller carries
//! out on the file. It is honest. A stop while the caller carries out the plan leaves only contents
//! that a stop of the `ByteDisk` may leave. `ReadOnlyDisk` is for callers that only read.
#![tactic(auto)]

mod disk;
mod given;
mod planned;
mod read_only;
mod step;

pub use disk::ByteDisk;
pub use planned::PlannedStep;
pub use read_only::ReadOnlyDisk;
pub use step::Step;
