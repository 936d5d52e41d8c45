//! Computes the answers to calls from C, over the bytes of a disk and in buffers of the caller.
//!
//! A call reads the given sectors and writes none. A call that changes a registry returns a plan:
//! the writes and syncs that the registry would make, in the order in which it would make them. The
//! caller carries the plan out on the disk. `rlibreg_c` exports a function for each call.
#![tactic(auto)]

mod answer;
mod asked_change;
mod bind;
mod bound;
mod buffers;
mod change;
mod change_place;
mod check;
mod digest;
mod entry;
mod file;
mod finding;
mod format;
mod give;
mod information;
mod list;
mod listing;
mod object;
mod place;
mod plan;
mod preload;
mod put;
mod status;
mod symbols;
mod text;
mod update;
mod upgrade;

pub use answer::Answer;
pub use bind::bind_on;
pub use bound::executable_on;
pub use change::plan_change;
pub use change_place::ChangePlace;
pub use check::check_on;
pub use digest::digest_on;
pub use entry::EntryPlace;
pub use file::file_on;
pub use finding::FindingPlace;
pub use format::format_on;
pub use information::{Information, info_on};
pub use list::list_on;
pub use object::ObjectPlace;
pub use place::SegmentPlace;
pub use preload::plan_preloads;
pub use symbols::bindings_on;
pub use update::plan_update;
pub use upgrade::upgrade_on;
