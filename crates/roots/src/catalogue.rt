//! The value that a catalogue sector encodes.

ghost use Rattle.std.specs.Prelude.{◌≡◌, ◌≤◌, ◌↔◌, IsTrue, length};
ghost use Rattle.states.specs.Limits.{most_catalogue_entries};
ghost use Rattle.roots.specs.Catalogue.{CatalogueHasSpelling};
ghost use Rattle.roots.specs.Catalogue.{catalogue_of_sectors, catalogued_sectors};

use crate::limits::MOST_CATALOGUE_ENTRIES;
use crate::lists::{lists_sectors, placed};
use extents::MOST_SECTORS;

/// A part of the list of libraries, as the sectors of their entries. If the catalogue can be
/// encoded, the unused places of `entry_sectors` are zero.
#[derive(Clone, Copy, PartialEq, Eq)]
pub struct Catalogue {
    /// The number of entries that the catalogue lists.
    pub count: u16,
    /// The sectors of the entries, in the order of the list.
    pub entry_sectors: [u32; MOST_CATALOGUE_ENTRIES],
}

impl Catalogue {
    /// Returns the catalogue that lists these sectors of entries.
    pub fn new(sectors: &[u32]) -> Catalogue
        requires { length sectors.now ≤ most_catalogue_entries }
        ensures value { result ≡ catalogue_of_sectors sectors.now }
        ensures sectors { catalogued_sectors result ≡ sectors.now }
    {
        Catalogue {
            count: sectors.len() as u16,
            entry_sectors: placed(sectors, 0),
        }
    }

    /// Returns the sectors of the entries, in the order of the list.
    pub fn sectors(&self) -> &[u32]
        requires { CatalogueHasSpelling self.now }
        ensures { result.now ≡ catalogued_sectors self.now }
    {
        &self.entry_sectors[..usize::from(self.count)]
    }

    /// Returns whether each field is within the format's limits, so that a sector can encode this
    /// catalogue. Compares each sector with the sectors before it: at most 2,016 comparisons.
    pub fn has_spelling(&self) -> bool
        ensures { IsTrue result ↔ CatalogueHasSpelling self.now }
    {
        self.count >= 1 && lists_sectors(&self.entry_sectors, self.count, MOST_SECTORS)
    }
}
