//! The value that a root sector encodes.

ghost use Rattle.std.specs.Prelude.{◌≡◌, ◌≤◌, ◌↔◌, IsTrue, length};
ghost use Rattle.states.specs.Limits.{most_preloads};
ghost use Rattle.roots.specs.Limits.{most_root_entries, most_catalogues};
ghost use Rattle.roots.specs.Root.{RootHasSpelling, PreloadsFit, version_of};
ghost use Rattle.roots.specs.Root.{root_over_entries, root_over_catalogues};
ghost use Rattle.roots.specs.Root.{listed_sectors, listed_preloads};

use crate::entry_list::EntryList;
use crate::lists::{are_distinct, placed};
use crate::version::Version;
use states::{MOST_PRELOADS, is_geometry};

/// The root of a registry, which one of the two root sectors holds. If the root can be encoded, the
/// unused places of its lists are zero.
#[derive(Clone, Copy, PartialEq, Eq)]
pub struct Root {
    /// The number of commits since the disk was formatted.
    pub generation: u64,
    /// The disk's size in sectors.
    pub sectors: u32,
    /// The number of installed libraries.
    pub library_count: u16,
    /// The number of preloads.
    pub preload_count: u16,
    /// The positions of the preloads in the list of libraries, in the order of the preloads.
    pub preloads: [u16; MOST_PRELOADS],
    /// The list by which the libraries' entries are found. Its form depends on the version of the
    /// disk.
    pub list: EntryList,
}

impl Root {
    /// Returns the root of version 1 with the generation `generation`, on a disk of `sectors`
    /// sectors. The root lists the entry sectors `entries`, and the preloads at the positions
    /// `preloads`.
    pub fn over_entries(generation: u64, sectors: u32, entries: &[u32], preloads: &[u16]) -> Root
        requires entries { length entries.now ≤ most_root_entries }
        requires preloads { length preloads.now ≤ most_preloads }
        ensures value { result ≡ root_over_entries generation sectors entries.now preloads.now }
        ensures entries { listed_sectors result ≡ entries.now }
        ensures preloads { listed_preloads result ≡ preloads.now }
    {
        Root {
            generation,
            sectors,
            library_count: entries.len() as u16,
            preload_count: preloads.len() as u16,
            preloads: placed(preloads, 0),
            list: EntryList::InRoot(placed(entries, 0)),
        }
    }

    /// Returns the root of version 2 with the generation `generation`, on a disk of `sectors`
    /// sectors. The root counts `library_count` libraries, and lists the catalogue sectors
    /// `catalogues` and the preloads at the positions `preloads`.
    pub fn over_catalogues(
        generation: u64,
        sectors: u32,
        library_count: u16,
        catalogues: &[u32],
        preloads: &[u16],
    ) -> Root
        requires catalogues { length catalogues.now ≤ most_catalogues }
        requires preloads { length preloads.now ≤ most_preloads }
        ensures value { result ≡ root_over_catalogues generation sectors library_count
            catalogues.now preloads.now }
        ensures catalogues { listed_sectors result ≡ catalogues.now }
        ensures preloads { listed_preloads result ≡ preloads.now }
    {
        Root {
            generation,
            sectors,
            library_count,
            preload_count: preloads.len() as u16,
            preloads: placed(preloads, 0),
            list: EntryList::InCatalogues {
                count: catalogues.len() as u16,
                sectors: placed(catalogues, 0),
            },
        }
    }

    /// Returns the version of the disk to which this root belongs.
    pub fn version(&self) -> Version
        ensures { result ≡ version_of self.now }
    {
        self.list.version()
    }

    /// Returns the sectors that the root itself lists, in the order of the list. In version 1 these
    /// are the sectors of the libraries' entries, and in version 2 those of the catalogues.
    pub fn listed_sectors(&self) -> &[u32]
        requires { RootHasSpelling self.now }
        ensures { result.now ≡ listed_sectors self.now }
    {
        match &self.list {
            EntryList::InRoot(sectors) => &sectors[..usize::from(self.library_count)],
            EntryList::InCatalogues { count, sectors } => &sectors[..usize::from(*count)],
        }
    }

    /// Returns the positions of the preloads in the list of libraries, in the order of the
    /// preloads.
    pub fn preload_positions(&self) -> &[u16]
        requires { RootHasSpelling self.now }
        ensures { result.now ≡ listed_preloads self.now }
    {
        &self.preloads[..usize::from(self.preload_count)]
    }

    /// Returns whether each field is within the format's limits, so that a sector can encode this
    /// root. Compares each listed sector with the sectors before it: at most 4,950 comparisons.
    pub fn has_spelling(&self) -> bool
        ensures { IsTrue result ↔ RootHasSpelling self.now }
    {
        // Every u64 can be a generation, so no test is needed. The field is read only to let the
        // proof know that it is a u64.
        let _generation = self.generation;
        is_geometry(self.sectors)
            && self.preloads_fit()
            && self.list.fits(self.library_count, self.sectors)
    }

    fn preloads_fit(&self) -> bool
        ensures { IsTrue result ↔ PreloadsFit self.now }
    {
        let count = usize::from(self.preload_count);
        if count > MOST_PRELOADS {
            return false;
        }
        let (used, rest) = self.preloads.split_at(count);
        used.iter().all(|position| *position < self.library_count)
            && are_distinct(used)
            && rest.iter().all(|position| *position == 0)
    }
}
