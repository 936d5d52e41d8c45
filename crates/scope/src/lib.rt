//! Load order and lookup: the targets to which the symbols of a program are bound (System V gABI
//! chapters 4 and 5, ld.so(8)).
//!
//! `load_order` puts a program, the preloads, and the libraries that they need into load order.
//! `resolve` returns the target of a symbol of one of these objects. The target is a symbol or 0.
//! An undefined symbol has no target.
#![tactic(auto)]

mod definition;
mod definition_table;
mod definitions;
mod installed;
mod level;
mod library;
mod loaded;
mod loading;
mod lookup;
mod needed_name;
mod needs;
mod order;
mod places;
mod refusal;
mod resolution;
mod target;
mod worth;

pub use level::first_level;
pub use library::Library;
pub use loading::load_order;
pub use needed_name::NeededName;
pub use order::{Order, program_name};
pub use places::Places;
pub use refusal::OrderRefusal;
pub use resolution::resolve;
pub use target::{Target, Undefined};
