//! A borrowed view of an ELF-64 shared object for x86-64 (System V gABI chapters 4 and 5, elf(5),
//! psABI).
//!
//! `Object::read` accepts a file if and only if none of its tests applies. Otherwise it returns the
//! refusal of the first test that applies. It allocates nothing and copies nothing: the names and
//! contents that the view returns are parts of the file.
#![tactic(auto)]

mod hash_table;
mod names;
mod object;
mod parts;
mod place;
mod relocation;
mod relocations;
mod strings;
mod symbol;
mod symbols;
mod tables;

pub use elf_file::{LoadSegments, ObjectRefusal, ProgramHeader};
pub use object::Object;
pub use relocation::{
    R_X86_64_64, R_X86_64_GLOB_DAT, R_X86_64_JUMP_SLOT, R_X86_64_NONE, R_X86_64_RELATIVE,
    Relocation, uses_symbol,
};
pub use strings::NeededNames;
pub use symbol::Symbol;
