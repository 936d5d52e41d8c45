//! Writes, as text, the targets of the symbols of a program and its libraries, and the names of the
//! libraries that each of these objects needs.
//!
//! `Bindings` is for placed objects. For each object, its text has the symbols to which the
//! object's relocations refer, and the targets of these symbols. `Dependencies` is for a program
//! that lacks libraries. Its text has the objects that were found, and each missing name.
#![tactic(auto)]

mod bindings;
mod dependencies;
mod lines;
mod named;
mod needs;
mod symbols;

pub use bindings::Bindings;
pub use dependencies::Dependencies;
