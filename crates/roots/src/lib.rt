//! The two root sectors, the entry sectors and the catalogue sectors of a registry's disk.
//!
//! After a stop, the two root sectors determine which state is current: `choose` returns the root
//! of this state. A root of version 1 lists the sectors of the entries. A root of version 2 lists
//! the sectors of catalogues, which list the sectors of the entries. Each entry has a library's
//! name, its file's length, and the extents that hold the file. Each value has exactly one encoding
//! as a sector, and a sector is decoded only if it encodes a value. No call allocates memory.
#![tactic(auto)]

mod catalogue;
mod catalogue_sector;
mod choice;
mod entry;
mod entry_list;
mod entry_sector;
mod field;
mod limits;
mod lists;
mod root;
mod root_sector;
mod slot;
mod version;
mod writer;

pub use catalogue::Catalogue;
pub use catalogue_sector::{decode_catalogue, encode_catalogue};
pub use choice::{ChooseRefusal, choose, slot_of};
pub use entry::Entry;
pub use entry_list::EntryList;
pub use entry_sector::{decode_entry, encode_entry};
pub use limits::{
    LEAST_FILE_BYTES, MOST_CATALOGUE_ENTRIES, MOST_CATALOGUES, MOST_FILE_BYTES, MOST_LIBRARIES,
    MOST_NAME_BYTES, MOST_ROOT_ENTRIES, catalogues_for,
};
pub use root::Root;
pub use root_sector::{decode_root, encode_root};
pub use slot::Slot;
pub use version::Version;
