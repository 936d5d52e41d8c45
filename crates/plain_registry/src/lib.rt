//! A registry as a plain list of names and bytes, with which tests of stops compare a registry on a
//! disk.
//!
//! The list and the registry on a disk share the types of commands and replies, and the code that
//! admits a file and binds a program. They don't share the tests of a command or the step table, so
//! the comparison shows faults in these.
#![tactic(auto)]

mod libraries;
mod numbers;
mod plain;

pub use libraries::have_distinct_names;
pub use numbers::are_preloads;
pub use plain::PlainRegistry;
