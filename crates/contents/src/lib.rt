//! The contents of a disk, and tests of its libraries. The call `open` reads roots, catalogues and
//! entries, but no library's file.
//!
//! `Contents::open` opens a disk of version 2 only for reading. `file` returns a library's bytes,
//! and `info` returns the numbers of the whole disk. `check` returns a finding for each library,
//! and `digests` returns the SHA-256 of each library. All other libraries can be read even if one
//! is damaged or can't be read.
#![tactic(auto)]

mod check;
mod contents;
mod digest;
mod file;
mod finding;
mod info;
mod open;
mod unread;

pub use check::finding_of;
pub use contents::Contents;
pub use finding::Finding;
pub use info::Info;
pub use unread::Unread;
