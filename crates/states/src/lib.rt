//! The contents of a registry: its state, the states to which changes lead, its size in sectors,
//! and its limits.
//!
//! Nearly all of this crate is definitions, in specs/, which the store, the registry and the
//! program cite. The only call is `is_geometry`, which tests whether a disk may have a size.
#![tactic(auto)]

mod geometry;
mod limits;

pub use geometry::is_geometry;
pub use limits::MOST_PRELOADS;
