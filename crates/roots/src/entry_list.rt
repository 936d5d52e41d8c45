//! The list in a root, which depends on the version of the disk.

ghost use Rattle.std.specs.Prelude.{◌≡◌, ◌↔◌, IsTrue};
ghost use Rattle.roots.specs.Root.{version_of_list, ListFits};

use crate::limits::{MOST_CATALOGUES, MOST_LIBRARIES, MOST_ROOT_ENTRIES, catalogues_for};
use crate::lists::lists_sectors;
use crate::version::Version;

/// The list of a root, by which the entries of the libraries are found. Each version of the disk
/// has its own list and its own magic.
#[derive(Clone, Copy, PartialEq, Eq)]
pub enum EntryList {
    /// Version 1: the root has the sectors of the entries, in the order of installation.
    InRoot([u32; MOST_ROOT_ENTRIES]),
    /// Version 2: the root has the sectors of catalogues, which list the sectors of the entries.
    InCatalogues {
        /// The number of catalogues.
        count: u16,
        /// The sectors of the catalogues, in the order of the list.
        sectors: [u32; MOST_CATALOGUES],
    },
}

impl EntryList {
    /// Returns the version of a disk whose roots have a list of this form.
    pub fn version(&self) -> Version
        ensures { result ≡ version_of_list self.now }
    {
        match self {
            EntryList::InRoot(_) => Version::One,
            EntryList::InCatalogues { .. } => Version::Two,
        }
    }

    /// Returns whether a sector can encode the list, if there are `libraries` libraries on a disk
    /// of `disk` sectors.
    pub(crate) fn fits(&self, libraries: u16, disk: u32) -> bool
        ensures { IsTrue result ↔ ListFits libraries disk self.now }
    {
        match self {
            EntryList::InRoot(sectors) => lists_sectors(sectors, libraries, disk),
            EntryList::InCatalogues { count, sectors } => {
                let libraries = usize::from(libraries);
                libraries <= MOST_LIBRARIES
                    && usize::from(*count) == catalogues_for(libraries)
                    && lists_sectors(sectors, *count, disk)
            }
        }
    }
}
