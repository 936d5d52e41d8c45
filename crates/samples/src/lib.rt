//! Files for tests: libraries and programs with names of one letter.
#![tactic(auto)]

mod bytes;
mod needing;
mod small;

pub use bytes::put;
pub use needing::{named, needing_file};
pub use small::{SIZE, library, padded, program};
