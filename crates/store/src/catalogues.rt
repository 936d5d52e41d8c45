// The sectors that a change writes one by one: its entry's sector, and the sectors of the new
// list's catalogues.
ghost use Rattle.std.specs.Prelude.{◌≡◌, ◌+◌, ◌≤◌, List, [], ◌∷◌, ◌++◌, length, vec_capacity};
ghost use Rattle.sector_disk.specs.Disk.{Sector, sector};
ghost use Rattle.passes.specs.declared.single.SingleSector.{SingleSector};
ghost use Rattle.passes.specs.Singles.{single_places, HoldsSingles};
ghost use Rattle.roots.specs.Catalogue.{SectorsFit};
ghost use Rattle.roots.specs.Entry.{EntryHasSpelling, SpellsEntry};
ghost use Rattle.roots.specs.Limits.{most_catalogues};
ghost use Rattle.store.specs.Stands.{AreCatalogued};
ghost use Rattle.store.specs.inside.Catalogues.{catalogue_single, catalogue_singles};
ghost use Rattle.store.specs.inside.Catalogues.{CanBeCatalogued};

use crate::placed_entry::PlacedEntry;
use passes::SingleSector;
use roots::{Catalogue, MOST_CATALOGUE_ENTRIES, MOST_CATALOGUES, encode_catalogue, encode_entry};
use std::alloc::{AllocError, Global};
use std::marker::Model;

/// The maximum number of sectors that a change writes one by one: all catalogues and one entry.
const MOST_SINGLES: usize = MOST_CATALOGUES + 1;

/// The sectors that a change writes one by one, in the order of the writes. The next change uses
/// the same memory again, so that no change allocates memory for them.
#[derive(Drop)]
pub(crate) struct Singles {
    list: Vec<SingleSector>,
}

impl Model for Singles {
    ghost Value = { List SingleSector };

    ghost view = { λ singles. singles.list.items };

    ghost invariant = { λ singles. most_catalogues + 1 ≤ vec_capacity singles.list };
}

impl Singles {
    /// Makes an empty list, with room for all sectors that a change may write one by one.
    pub(crate) fn new(alloc: Global) -> Result<Singles, AllocError> {
        Ok(Singles {
            list: Vec::with_capacity(alloc, MOST_SINGLES)?,
        })
    }

    /// Returns the sectors, in the order of the writes.
    pub(crate) fn as_slice(&self) -> &[SingleSector]
        ensures { result.now ≡ self.now }
    {
        &self.list
    }

    fn push(&mut self, single: SingleSector)
        requires { length self.old ≤ most_catalogues }
        ensures { self.new ≡ self.old ++ single ∷ [] }
    {
        self.list.push_reserved(single);
    }

    /// Appends the catalogues that are written to the sectors `catalogues`. Together they list the
    /// entry sectors `sectors`.
    fn push_catalogues(&mut self, catalogues: &[u32], sectors: &[u32])
        requires parts { CanBeCatalogued (length catalogues.now) sectors.now }
        requires room { length self.old ≤ 1 }
        ensures { self.new ≡ self.old ++ catalogue_singles catalogues.now sectors.now }
    {
        let mut rest = sectors;
        for at in catalogues {
            let (part, behind) = rest.split_at(rest.len().min(MOST_CATALOGUE_ENTRIES));
            self.push(catalogue_single(*at, part));
            rest = behind;
        }
    }

    /// Replaces the list with the catalogues that are written to the sectors `catalogues`. Together
    /// they list the entry sectors `sectors`.
    pub(crate) fn set_catalogues(&mut self, catalogues: &[u32], sectors: &[u32])
        requires { CanBeCatalogued (length catalogues.now) sectors.now }
        ensures places { single_places self.new ≡ catalogues.now }
        ensures count { length self.new ≡ length catalogues.now }
        ensures held { (m : List Sector) → HoldsSingles m self.new
            → AreCatalogued m catalogues.now sectors.now }
    {
        self.list.clear();
        self.push_catalogues(catalogues, sectors);
    }

    /// Replaces the list with the sector of the entry `put` and, after it, the catalogues that are
    /// written to the sectors `catalogues`. Together these catalogues list the entry sectors
    /// `sectors`.
    pub(crate) fn set_put(&mut self, put: &PlacedEntry, catalogues: &[u32], sectors: &[u32])
        requires entry { EntryHasSpelling put.now.entry }
        requires sectors { CanBeCatalogued (length catalogues.now) sectors.now }
        ensures places { single_places self.new ≡ put.now.at ∷ catalogues.now }
        ensures count { length self.new ≡ length catalogues.now + 1 }
        ensures entry { (m : List Sector) → HoldsSingles m self.new
            → SpellsEntry (sector m put.now.at) put.now.entry }
        ensures catalogues { (m : List Sector) → HoldsSingles m self.new
            → AreCatalogued m catalogues.now sectors.now }
    {
        self.list.clear();
        self.push(SingleSector {
            at: put.at,
            content: encode_entry(&put.entry),
        });
        self.push_catalogues(catalogues, sectors);
    }
}

/// Returns sector number `at` with a catalogue that lists the entry sectors `sectors`.
fn catalogue_single(at: u32, sectors: &[u32]) -> SingleSector
    requires { SectorsFit sectors.now }
    ensures { result ≡ catalogue_single at sectors.now }
{
    SingleSector {
        at,
        content: encode_catalogue(&Catalogue::new(sectors)),
    }
}
