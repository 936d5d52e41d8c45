//! A registry on given bytes: the answers to commands, and the plans of its changes.
//!
//! Each call reads the bytes of a disk's file and changes none of them. The plan of a call's
//! changes is a sync, followed by the steps that `behind_sync` returns for the disk that the call
//! returns. Carrying out the plan leads from the state that the bytes hold to the next state, and a
//! stop at any moment leaves one of these two states.
#![tactic(auto)]

mod asked;
mod generation;
mod making;
mod opened;
mod plan;
mod updated;
mod upgrading;

pub use asked::ask;
pub use generation::generation_of;
pub use making::format;
pub use opened::{contents_of, registry_of};
pub use plan::behind_sync;
pub use updated::ask_update;
pub use upgrading::upgrade;
