use roots::Entry;

/// An entry, and the sector that encodes it.
#[derive(Clone, Copy)]
pub struct PlacedEntry {
    pub at: u32,
    pub entry: Entry,
}
