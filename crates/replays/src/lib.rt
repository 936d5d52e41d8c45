//! The laws about dumps, which `rlibreg-tool dump` writes. With the dump of a registry, `rlibreg
//! script` makes a new registry with the same contents, line by line. `rlibreg-tool update` makes
//! such a registry in one change. The third law is that a bind of an update has the same answer as
//! a bind after the update's commit.
#![tactic(auto)]

mod bind_law;
mod law;
mod update_law;

pub use bind_law::planned_binds;
pub use law::dump_replays;
pub use update_law::dump_updates;
