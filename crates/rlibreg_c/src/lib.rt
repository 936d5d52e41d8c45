//! The registry for C: calls over the bytes of a disk, with buffers for their results.
//!
//! A call reads the given sectors and writes none. A call that changes a registry returns a plan:
//! the writes and syncs that the registry would make, in the order in which it would make them. The
//! caller carries the plan out on the disk. No call keeps anything after it returns, and the only
//! requirement for the arguments is that their memory exists.
//!
//! This crate has only the exported functions: `c_answers` computes their answers.
#![tactic(auto)]

mod bind;
mod bound;
mod change;
mod check;
mod digest;
mod file;
mod format;
mod information;
mod list;
mod preload;
mod symbols;
mod update;
mod upgrade;
