//! A bound program as a static ELF executable for x86-64 (gABI chapters 4 and 5, elf(5)).
//!
//! `executable_of` makes a file from an image. The kernel loads exactly this image from the file.
//! The file has a PT_LOAD for each run of pages with the same permissions, one PT_LOAD for the
//! headers, PT_PHDR and PT_GNU_STACK. It starts without a loader and without a registry.
#![tactic(auto)]

mod entry;
mod executable;
mod front;
mod initializers;
mod line;
mod merging;
mod note;
mod piece;
mod pieces;
mod place;
mod refusal;
mod segments;
mod static_pie;
mod writable_code;

pub use executable::{Executable, executable_of};
pub use line::{put_executable_refusal, write_executable_refusal};
pub use refusal::ExecutableRefusal;
