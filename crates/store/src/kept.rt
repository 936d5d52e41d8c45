// The part of a store that is kept in memory.
use crate::catalogues::Singles;
use crate::holds::Holds;
use crate::name_index::NameIndex;
use crate::placed_entry::PlacedEntry;
use extents::Layout;
use roots::Root;

/// The part of a store that is kept in memory: the entries, but no bytes of byte strings.
#[derive(Drop)]
pub(crate) struct Kept {
    pub root: Root,
    pub entries: Vec<PlacedEntry>,
    /// The sectors of the entries, in the order of the entries, as long as no change has failed.
    pub sectors: Vec<u32>,
    /// Room for the sectors that a change writes one by one.
    pub singles: Singles,
    pub index: NameIndex,
    pub held: Holds,
    pub layout: Layout,
    /// Whether a write or a sync has failed. If so, the state that the disk holds is unknown until
    /// the disk is opened again.
    pub failed: bool,
}
