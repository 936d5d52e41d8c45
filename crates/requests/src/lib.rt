//! Commands to a registry of shared libraries, their answers, and the step table. The step table
//! states the answers that a command may have in a state, and the state after the command
//! (specs/Step.antt).
//!
//! `library_name` reads a file as a library. The registry that carries out the commands is in the
//! crate `registry`.
#![tactic(auto)]

mod command;
mod listing;
mod refusal;
mod reply;
mod soname;
mod words;

pub use command::Command;
pub use listing::Listing;
pub use refusal::Refusal;
pub use reply::Reply;
pub use soname::library_name;
pub use words::{are_too_many, has_repeat};
