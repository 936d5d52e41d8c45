//! Admission of a shared object, and the search for a name by its hash table (System V gABI
//! chapters 4 and 5).
//!
//! `Admitted::admit` accepts an object if and only if the object exports no name twice and its hash
//! table can be trusted. Then `find` returns, for every list of bytes, the symbol that the object
//! exports under that name.
#![tactic(auto)]

mod admitted;
mod agreement;
mod buckets;
mod chains;
mod duplicates;
mod endings;
mod export;
mod exports;
mod file;
mod file_refusal;
mod hash;
mod hashes;
mod joint;
mod jump;
mod key;
mod lanes;
mod meeting;
mod name;
mod name_budget;
mod name_table;
mod names;
mod numbered;
mod place;
mod refusal;
mod search;
mod soname;
mod strings;
mod table;
mod walk;

pub use admitted::Admitted;
pub use file_refusal::{FileRefusal, ReadRefusal};
pub use hash::elf_hash;
pub use name_budget::NameBudget;
pub use numbered::{NumberedSymbol, numbered_symbols};
pub use refusal::AdmitRefusal;
pub use search::Found;
