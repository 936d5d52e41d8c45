//! A registry of shared libraries on a disk, which survives power cuts.
//!
//! `Registry::format` makes a disk a registry, and `Registry::open` opens it again. A stop at any
//! moment leaves sectors that hold the state before a change or the state after it.
//! `Registry::upgrade` changes a disk of version 1 to version 2. Between calls, a registry has no
//! bytes of libraries' files in memory, except the files that a binder has read. specs/Stands.antt
//! defines which state a list of sectors holds.
#![tactic(auto)]

mod admit;
mod admit_current;
mod admit_old;
mod apply;
mod bind;
mod binder;
mod bound;
mod change;
mod draft;
mod find;
mod format;
mod library_file;
mod list;
mod listed;
mod needed;
mod needs;
mod open;
mod put;
mod reading;
mod refusal;
mod registry;
mod rounds;
mod runs;
mod source;
mod tests;
mod update;
mod update_apply;
mod update_bind;
mod update_change;
mod upgrade;
mod walk;

pub use binder::{Binder, Step};
pub use find::FoundLibraries;
pub use registry::Registry;
pub use rounds::{Round, RoundReplies, run_rounds};
pub use runs::runs_join;
pub use update::Update;
