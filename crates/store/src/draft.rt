// The draft of an update: the list that the update has made so far.
ghost use Rattle.std.specs.Prelude.{◌≡◌, ◌<◌, ◌≤◌, ◌^◌, All, IfOk, length};
ghost use Rattle.roots.specs.Entry.{EntryHasSpelling};
ghost use Rattle.roots.specs.Root.{RootHasSpelling, listed_preloads};
ghost use Rattle.states.specs.Limits.{most_preloads};
ghost use Rattle.store.specs.Draft.{lists, touched_preloads};
ghost use Rattle.store.specs.inside.Draft.{IsOneOrApart};
ghost use Rattle.store.specs.inside.Edit.{CanEdit, CanEditSectors, edited, edited_by};
ghost use Rattle.store.specs.inside.Kept.{HaveSpellings};
ghost use Rattle.store.specs.inside.NameIndex.{IsIndex};
ghost use Rattle.store.specs.Stands.{HaveOwnNames};

use crate::edit::Edit;
use crate::kept::Kept;
use crate::name_index::NameIndex;
use crate::placed_entry::PlacedEntry;
use arrayvec::ArrayVec;
use roots::Root;
use states::MOST_PRELOADS;
use std::alloc::{AllocError, Global};

/// Which parts of the draft the update has changed so far.
#[derive(Clone, Copy, PartialEq, Eq)]
pub enum Touched {
    /// No part. The commit writes nothing.
    Nothing,
    /// Only the preloads. The commit writes a root with the same catalogues.
    Preloads,
    /// The list of entries. The commit writes new catalogues and a root.
    List,
}

/// The positions of preloads.
pub(crate) type Preloads = ArrayVec<u16, MOST_PRELOADS>;

/// The list that an update has made so far. No root leads to this list before the commit.
#[derive(Drop)]
pub(crate) struct Draft {
    pub entries: Vec<PlacedEntry>,
    /// The sectors of the entries, in the order of the entries.
    pub sectors: Vec<u32>,
    pub index: NameIndex,
    pub preloads: Preloads,
    pub touched: Touched,
}

/// Returns whether the list `entries`, which has the index `index`, contains the entry `placed` in
/// the same sector.
pub(crate) fn has_entry(entries: &[PlacedEntry], index: &NameIndex, placed: &PlacedEntry) -> bool
    requires index { IsIndex entries.now index.now }
    requires spellings { HaveSpellings entries.now }
    requires fits { EntryHasSpelling placed.now.entry }
    requires names { HaveOwnNames entries.now }
    requires same { IsOneOrApart entries.now placed.now }
    ensures { result ≡ lists entries.now placed.now }
{
    match index.position_of(entries, placed.entry.name_bytes()) {
        Some(position) => entries[position].at == placed.at,
        None => false,
    }
}

/// Returns the positions of a root's preloads.
fn preloads_of(root: &Root) -> Preloads
    requires { RootHasSpelling root.now }
    ensures { result.items ≡ listed_preloads root.now }
{
    let mut preloads = ArrayVec::new();
    for position in root.preload_positions() {
        preloads.push(*position);
    }
    preloads
}

/// Returns `positions` as a list of preloads.
fn preloads_at(positions: &[usize]) -> Preloads
    requires few { length positions.now ≤ most_preloads }
    requires inside { All (λ position. position < 2 ^ 16) positions.now }
    ensures { result.items ≡ positions.now }
{
    let mut preloads = ArrayVec::new();
    for position in positions {
        preloads.push(*position as u16);
    }
    preloads
}

impl Draft {
    /// Makes a draft whose list is the current list.
    pub(crate) fn over(alloc: Global, kept: &Kept) -> Result<Draft, AllocError>
        requires { RootHasSpelling kept.now.root }
        ensures entries { IfOk result (λ draft. draft.entries.items ≡ kept.now.entries.items) }
        ensures sectors { IfOk result (λ draft. draft.sectors.items ≡ kept.now.sectors.items) }
        ensures index { IfOk result (λ draft. draft.index.positions ≡ kept.now.index.positions) }
        ensures preloads { IfOk result (λ draft.
            draft.preloads.items ≡ listed_preloads kept.now.root) }
        ensures touched { IfOk result (λ draft. draft.touched ≡ Touched.Nothing) }
    {
        let mut entries = Vec::new(alloc);
        entries.extend_from_slice(&kept.entries)?;
        let mut sectors = Vec::new(alloc);
        sectors.extend_from_slice(&kept.sectors)?;
        let index = kept.index.copy(alloc)?;
        Ok(Draft {
            entries,
            sectors,
            index,
            preloads: preloads_of(&kept.root),
            touched: Touched::Nothing,
        })
    }

    /// Makes the change `edit` in the draft's list. Allocates nothing.
    pub(crate) fn edit(&mut self, edit: &Edit)
        requires sectors { CanEditSectors edit.now self.old.sectors }
        requires edit { CanEdit edit.now self.old.entries self.old.index.room }
        requires index { IsIndex self.old.entries.items self.old.index }
        requires spellings { HaveSpellings self.old.entries.items }
        requires few { length self.old.entries.items < 2 ^ 16 }
        ensures entries { self.new.entries.items ≡ edited edit.now self.old.entries.items }
        ensures sectors { self.new.sectors.items
            ≡ edited_by (λ placed. placed.at) edit.now self.old.sectors.items }
        ensures index { IsIndex self.new.entries.items self.new.index }
        ensures preloads { self.new.preloads ≡ self.old.preloads }
        ensures touched { self.new.touched ≡ Touched.List }
    {
        edit.list(&mut self.sectors);
        edit.enter(&mut self.entries, &mut self.index);
        self.touched = Touched::List;
    }

    /// Makes the byte strings at `positions` the draft's preloads.
    pub(crate) fn choose(&mut self, positions: &[usize])
        requires few { length positions.now ≤ most_preloads }
        requires inside { All (λ position. position < 2 ^ 16) positions.now }
        ensures preloads { self.new.preloads.items ≡ positions.now }
        ensures touched { self.new.touched ≡ touched_preloads self.old.touched }
        ensures entries { self.new.entries ≡ self.old.entries }
        ensures sectors { self.new.sectors ≡ self.old.sectors }
        ensures index { self.new.index ≡ self.old.index }
    {
        self.preloads = preloads_at(positions);
        if self.touched == Touched::Nothing {
            self.touched = Touched::Preloads;
        }
    }
}
