//! Reads the headers and the dynamic section of an ELF-64 file for x86-64 (System V gABI chapters 4
//! and 5, elf(5)).
//!
//! `Dynamic::read` accepts a file if and only if none of the tests of its headers, segments and
//! tags applies. Otherwise it returns the refusal of the first test that applies. For an accepted
//! file, it returns a `Dynamic`, which has the values of the tags, the PT_LOADs, and the bytes of
//! the file at an address. The crate allocates nothing and copies nothing.
#![tactic(auto)]

mod address;
mod dynamic;
mod entry;
mod first_refusal;
mod header;
mod headers;
mod indexed_segments;
mod load_index;
mod load_segments;
mod memory;
mod needed;
mod number;
mod object_addresses;
mod refusal;
mod segment;
mod segments;
mod tag;
mod tag_table;

pub use dynamic::Dynamic;
pub use entry::Entry;
pub use headers::Headers;
pub use indexed_segments::IndexedSegments;
pub use load_segments::LoadSegments;
pub use memory::is_in_memory_part;
pub use needed::NeededOffsets;
pub use number::{u16_at, u32_at, u64_at};
pub use object_addresses::ObjectAddresses;
pub use refusal::ObjectRefusal;
pub use segment::{PT_LOAD, ProgramHeader};
pub use segments::Segments;
pub use tag::{RELOCATION_SIZE, SYMBOL_SIZE, Tag};
