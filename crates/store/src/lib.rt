//! The store of version 2 of the disk: up to 2,048 named byte strings that survive a power cut.
//!
//! `Store::format` makes a store on a disk, and `Store::open` opens it again after a stop at any
//! moment. `put_new` puts a byte string after all other byte strings, `put_over` replaces the bytes
//! under a name, `delete` removes a byte string, and `set_preloads` chooses the preloads.
//! `Store::look` finds the store on a disk of version 1 or 2, and `OldStore::commit` turns a disk
//! of version 1 into one of version 2. `Store::update` begins an update, which makes several
//! changes of a draft, and then commits them together. specs/Stands.antt defines which state a list
//! of sectors holds.
#![tactic(auto)]

mod catalogues;
mod change;
mod commit;
mod delete;
mod draft;
mod draft_room;
mod edit;
mod entries;
mod find;
mod format;
mod found_state;
mod held;
mod holds;
mod kept;
mod listed;
mod look;
mod name_index;
mod next;
mod old_query;
mod old_store;
mod open;
mod placed_entry;
mod preload;
mod prepared;
mod put;
mod put_new;
mod put_over;
mod query;
mod read;
mod refusal;
mod room;
mod slots;
mod store;
mod test_change;
mod unused_space;
mod update;
mod update_commit;
mod update_lines;
mod update_query;
mod upgrade;
mod used;

pub use draft::Touched;
pub use held::Held;
pub use holds::HeldRow;
pub use look::Look;
pub use old_store::OldStore;
pub use placed_entry::PlacedEntry;
pub use refusal::StoreRefusal;
pub use store::Store;
pub use unused_space::UnusedSpace;
pub use update::Update;
