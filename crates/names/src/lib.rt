//! The names in refusals, replies and listings, as byte strings that own their memory.
//!
//! In contracts, a `Name` is the list of its bytes. So in definitions, an enum or a struct with
//! names is plain data.
#![tactic(auto)]

mod name;

pub use name::Name;
