//! Updates of a registry on a disk: one commit makes all the changes that the lines of the input
//! request.
//!
//! `run_update` opens the registry, reads lines up to `commit`, answers each line, and commits the
//! changes that the lines planned. The first refusal ends the update, and leaves the disk's
//! contents unchanged.
#![tactic(auto)]

mod answer;
mod commit;
mod lines;
mod report;
mod run;
mod said;

pub use answer::UpdateRefusal;
pub use run::run_update;
