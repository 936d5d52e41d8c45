// A change of the list of entries, of the order of the names, and of the claimed sectors.
ghost use Rattle.std.specs.Prelude.{◌≡◌, ◌^◌, ◌<◌, length};
ghost use Rattle.roots.specs.Root.{RootHasSpelling};
ghost use Rattle.store.specs.inside.Edit.{CanEdit, CanEditSectors, ReleasesReplaced, IsWithin};
ghost use Rattle.store.specs.inside.Edit.{edited, edited_by, gone_sectors};
ghost use Rattle.store.specs.inside.Kept.{HaveSpellings};
ghost use Rattle.store.specs.inside.NameIndex.{IsIndex};
ghost use Rattle.store.specs.inside.Room.{AreClaimedOnce};

use crate::holds::Holds;
use crate::listed::catalogues;
use crate::name_index::NameIndex;
use crate::placed_entry::PlacedEntry;
use crate::room::{give_up, release_sectors};
use extents::Layout;
use roots::Root;

/// A change of the list of entries.
#[derive(Clone, Copy)]
pub(crate) enum Edit {
    /// The list stays the same, and so do its catalogues.
    Nothing,
    /// The entry is put after all other entries.
    Append(PlacedEntry),
    /// The entry takes the place of the entry at the position, which has the same name.
    Replace(usize, PlacedEntry),
    /// The entry at the position is removed, and the entries after it move up by one position.
    Remove(usize),
}

impl Edit {
    /// Makes the change in `sectors`, the list of the entries' sectors. Allocates nothing.
    pub(crate) fn list(&self, sectors: &mut Vec<u32>)
        requires { CanEditSectors self.now sectors.old }
        ensures { sectors.new.items ≡ edited_by (λ placed. placed.at) self.now sectors.old.items }
    {
        match self {
            Edit::Nothing => {}
            Edit::Append(put) => sectors.push_reserved(put.at),
            Edit::Replace(position, put) => sectors[*position] = put.at,
            Edit::Remove(position) => {
                sectors.remove(*position);
            }
        }
    }

    /// Makes the change in `entries`, the list of entries, and in `index`, the order of their
    /// names. Allocates nothing.
    pub(crate) fn enter(&self, entries: &mut Vec<PlacedEntry>, index: &mut NameIndex)
        requires edit { CanEdit self.now entries.old index.old.room }
        requires index { IsIndex entries.old.items index.old }
        requires spellings { HaveSpellings entries.old.items }
        requires few { length entries.old.items < 2 ^ 16 }
        ensures entries { entries.new.items ≡ edited self.now entries.old.items }
        ensures index { IsIndex entries.new.items index.new }
    {
        match self {
            Edit::Nothing => {}
            Edit::Append(put) => {
                index.insert(entries, put.entry.name_bytes());
                entries.push_reserved(*put);
            }
            Edit::Replace(position, put) => entries[*position] = *put,
            Edit::Remove(position) => {
                index.remove(entries, *position);
                entries.remove(*position);
            }
        }
    }

    /// Frees the sectors that the state no longer uses after the change: the sectors of the old
    /// catalogues, and those of the replaced or removed entry, unless its byte string is held.
    pub(crate) fn release_replaced(
        &self,
        root: &Root,
        entries: &[PlacedEntry],
        held: &mut Holds,
        layout: &mut Layout,
    )
        requires root { RootHasSpelling root.now }
        requires spellings { HaveSpellings entries.now }
        requires within { IsWithin self.now (length entries.now) }
        requires held { AreClaimedOnce layout.old (gone_sectors self.now root.now entries.now) }
        ensures { ReleasesReplaced self.now root.now entries.now held.old held.new layout.old
            layout.new }
    {
        match self {
            Edit::Nothing => {}
            Edit::Append(_) => release_sectors(layout, catalogues(root)),
            Edit::Replace(position, _) => {
                give_up(layout, held, &entries[*position], catalogues(root));
            }
            Edit::Remove(position) => {
                give_up(layout, held, &entries[*position], catalogues(root));
            }
        }
    }
}
