//! Snapshots of a store. A snapshot holds all byte strings that the store has at one moment. They
//! can be found by name, and read as they were at that moment, even if the store has changed since.
//!
//! `Snapshot::take` holds each byte string of a store, and `Snapshot::let_go` releases all of them.
//! specs/Snapshot.antt defines what a snapshot of a store is.
#![tactic(auto)]

mod find;
mod hold_all;
mod release;
mod snapshot;

pub use snapshot::Snapshot;
