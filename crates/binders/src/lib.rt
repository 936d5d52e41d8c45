//! Binders: a registry binds programs step by step, while its libraries change.
//!
//! `Binders` has a registry and up to 8 binders. Each binder binds with the registry as it was when
//! the binder began. `Binders::run_events` carries out commands and steps of binders in any order.
//! specs/Slotted.antt defines the flights of binders.
#![tactic(auto)]

mod binders;
mod event;
mod run;
mod slots;

pub use binders::Binders;
pub use event::{Event, EventReply};
