// Takes sectors for a draft beside the current state, writes the draft's byte strings to these
// sectors, and frees sectors that the draft no longer uses.
ghost use Rattle.std.specs.Prelude.{◌≡◌, ◌+◌, ◌*◌, ◌<◌, ◌≤◌, ◌^◌, [], All, Contains, IfErr};
ghost use Rattle.std.specs.Prelude.{◌≢◌, ℕ, IsFalse, IsTrue, OnErr, OnOk, length, vec_capacity, vec_len};
ghost use Rattle.extents.specs.Extent.{places, sector_count};
ghost use Rattle.passes.specs.Bytes.{bytes_at, padded};
ghost use Rattle.passes.specs.Calls.{AreCallsInRow};
ghost use Rattle.roots.specs.Entry.{EntryHasSpelling, SpellsEntry};
ghost use Rattle.roots.specs.Root.{RootHasSpelling};
ghost use Rattle.sector_disk.specs.Disk.{IsMixtureBut, LeavesOnly, SameBut, sector, sector_bytes};
ghost use Rattle.states.specs.Cost.{catalogue_cost};
ghost use Rattle.states.specs.Limits.{last_generation, most_libraries};
ghost use Rattle.states.specs.State.{State};
ghost use Rattle.store.specs.Names.{IsFileSize, IsName};
ghost use Rattle.store.specs.Stands.{HaveOwnNames, catalogues_of, extents_of, sectors_of};
ghost use Rattle.store.specs.Step.{IsAnswer, IsExactAnswer, IsRefusalOfPutNew};
ghost use Rattle.store.specs.Step.{IsRefusalOfPutOver, refusal_of_new, refusal_of_put};
ghost use Rattle.store.specs.inside.Draft.{IsDraftCounted, IsOneOrApart, KeepsList, TakesBeside};
ghost use Rattle.store.specs.inside.Draft.{own_in, own_sectors_in, spare_of, taken_of, with_layout};
ghost use Rattle.store.specs.inside.Stored.{longest_in};
ghost use Rattle.store.specs.inside.Kept.{HaveSpellings};
ghost use Rattle.store.specs.inside.NameIndex.{IsIndex};
ghost use Rattle.store.specs.inside.Room.{AreClaimedOnce, HasPlace, IsReleased};
ghost use Rattle.store.specs.inside.Unlisted.{CanReleaseUnlisted, ReleasesUnlisted};

use crate::draft::{Draft, has_entry};
use crate::holds::Holds;
use crate::kept::Kept;
use crate::listed::catalogues;
use crate::placed_entry::PlacedEntry;
use crate::put::{reserve_one, take_put};
use crate::refusal::StoreRefusal;
use crate::room::{give_back, give_up, release_sectors};
use extents::Layout;
use passes::write_unsynced;
use roots::{MOST_LIBRARIES, Root, catalogues_for};
use sector_disk::Disk;

/// Returns the number of sectors that have to stay unused beside a draft of `libraries` byte
/// strings: for the catalogues of the commit, and for the catalogues of the change after the
/// commit.
fn spare_for(root: &Root, libraries: usize) -> usize
    requires root { RootHasSpelling root.now }
    requires few { libraries ≤ most_libraries }
    ensures { result ≡ spare_of (length (catalogues_of root.now)) libraries }
{
    let standing = catalogues(root).len();
    standing + 2 * catalogues_for(libraries).saturating_sub(standing)
}

/// Frees the sectors that the store no longer uses after the commit of a draft's list: the sectors
/// of the old catalogues, and those of the entries that the draft doesn't have, unless they are
/// held.
fn release_unlisted(
    root: &Root,
    entries: &[PlacedEntry],
    draft: &Draft,
    held: &mut Holds,
    layout: &mut Layout,
)
    requires index { IsIndex draft.now.entries.items draft.now.index }
    requires can { CanReleaseUnlisted root.now entries.now draft.now.entries.items held.old
        layout.old }
    ensures { ReleasesUnlisted root.now entries.now draft.now.entries.items
        held.old held.new layout.old layout.new }
{
    for placed in entries {
        if !has_entry(&draft.entries, &draft.index, placed) {
            give_up(layout, held, placed, &[]);
        }
    }
    release_sectors(layout, catalogues(root));
}

impl Kept {
    /// Takes room for a byte string that is put after the draft's other byte strings. Refuses with
    /// S2, S9, S10, S11, S7 or S8.
    pub(crate) fn take_new(
        &mut self,
        draft: &mut Draft,
        name: &[u8],
        bytes: &[u8],
    ) -> Result<PlacedEntry, StoreRefusal>
        requires root { RootHasSpelling self.old.root }
        requires disk { length self.old.layout ≡ self.old.root.sectors }
        requires few { length draft.old.entries.items ≤ most_libraries }
        requires name { IsName name.now }
        requires size { IsFileSize (length bytes.now) }
        ensures takes { TakesBeside self.old self.new name.now bytes.now
            (spare_of (length (catalogues_of self.old.root)) (length draft.old.entries.items)
            + catalogue_cost (length draft.old.entries.items)) IsRefusalOfPutNew result }
        ensures few { OnOk result (length draft.old.entries.items < most_libraries) }
        ensures later { OnOk result (self.old.root.generation ≢ last_generation) }
        ensures refused { IsFalse self.old.failed → (sectors : ℕ) → (d : State)
            → IsDraftCounted self.old (length draft.old.entries.items) sectors d
            → IsAnswer (refusal_of_new sectors (longest_in self.old) d bytes.now)
            (taken_of result) }
        ensures entries { draft.new.entries.items ≡ draft.old.entries.items }
        ensures sectors { draft.new.sectors.items ≡ draft.old.sectors.items }
        ensures index { draft.new.index.positions ≡ draft.old.index.positions }
        ensures preloads { draft.new.preloads ≡ draft.old.preloads }
        ensures touched { draft.new.touched ≡ draft.old.touched }
        ensures index_room { OnOk result (1 ≤ draft.new.index.room) }
        ensures entries_room { OnOk result
            (vec_len draft.new.entries < vec_capacity draft.new.entries) }
        ensures sectors_room { OnOk result
            (vec_len draft.new.sectors < vec_capacity draft.new.sectors) }
    {
        if self.failed {
            return Err(StoreRefusal::Reopen);
        }
        let libraries = draft.entries.len();
        if libraries >= MOST_LIBRARIES {
            return Err(StoreRefusal::TooMany);
        }
        self.test_change()?;
        reserve_one(&mut draft.index, &mut draft.entries, &mut draft.sectors)?;
        let more = 2 * (catalogues_for(libraries + 1) - catalogues_for(libraries));
        let spare = spare_for(&self.root, libraries) + more;
        let room = take_put(&mut self.layout, name, bytes, 0, spare)?;
        Ok(room.put)
    }

    /// Takes room for the new bytes of a byte string, in a draft of `libraries` byte strings.
    /// Refuses with S2, S10, S7 or S8.
    pub(crate) fn take_over(
        &mut self,
        libraries: usize,
        name: &[u8],
        bytes: &[u8],
    ) -> Result<PlacedEntry, StoreRefusal>
        requires root { RootHasSpelling self.old.root }
        requires disk { length self.old.layout ≡ self.old.root.sectors }
        requires few { libraries ≤ most_libraries }
        requires name { IsName name.now }
        requires size { IsFileSize (length bytes.now) }
        ensures takes { TakesBeside self.old self.new name.now bytes.now
            (spare_of (length (catalogues_of self.old.root)) libraries)
            IsRefusalOfPutOver result }
        ensures later { OnOk result (self.old.root.generation ≢ last_generation) }
        ensures refused { IsFalse self.old.failed → (sectors : ℕ) → (d : State)
            → IsDraftCounted self.old libraries sectors d
            → IsExactAnswer (refusal_of_put sectors (longest_in self.old) d bytes.now)
            (taken_of result) }
    {
        self.test_change()?;
        let spare = spare_for(&self.root, libraries);
        let room = take_put(&mut self.layout, name, bytes, 0, spare)?;
        Ok(room.put)
    }

    /// Writes a byte string and its entry to the sectors that were taken for them, without a sync.
    /// If a write fails, gives these sectors back.
    pub(crate) fn write_draft<D: Disk>(
        &mut self,
        disk: &mut D,
        put: &PlacedEntry,
        bytes: &[u8],
    ) -> Result<(), StoreRefusal>
        requires fits { (D.facts disk.old).sectors < 2 ^ 32 }
        requires place { HasPlace (D.facts disk.old).sectors put.now [] }
        requires held { AreClaimedOnce self.old.layout (sectors_of put.now) }
        ensures kept { KeepsList self.old self.new }
        ensures usable { OnOk result (IsFalse self.new.failed) }
        ensures failed { OnErr result (IsTrue self.new.failed) }
        ensures layout { OnOk result (self.new.layout ≡ self.old.layout) }
        ensures given_back { OnErr result
            (IsReleased self.old.layout self.new.layout (sectors_of put.now)) }
        ensures refusals { IfErr result (λ e. e ≡ StoreRefusal.Device) }
        ensures calls { AreCallsInRow (sector_count (extents_of put.now.entry) + 1)
            (D.facts disk.old) (D.facts disk.new) result }
        ensures any_moment { IsTrue (D.facts disk.old).honest
            → LeavesOnly (D.facts disk.old) (D.facts disk.new)
            (IsMixtureBut (Contains (sectors_of put.now)) (D.facts disk.old)) }
        ensures now { IsTrue (D.facts disk.old).honest → OnOk result
            (SameBut (Contains (sectors_of put.now))
            (D.facts disk.old).now (D.facts disk.new).now) }
        ensures written { IsTrue (D.facts disk.old).honest → OnOk result
            (bytes_at (D.facts disk.new).now (places (extents_of put.now.entry))
            ≡ padded (sector_bytes * sector_count (extents_of put.now.entry)) bytes.now) }
        ensures entry { IsTrue (D.facts disk.old).honest → OnOk result
            (SpellsEntry (sector (D.facts disk.new).now put.now.at) put.now.entry) }
    {
        self.failed = true;
        self.singles.set_put(put, &[], &[]);
        let extents = put.entry.file_extents();
        let written = write_unsynced(disk, extents, bytes, self.singles.as_slice());
        if let Err(fault) = written {
            give_back(&mut self.layout, put);
            return Err(StoreRefusal::from(fault));
        }
        self.failed = false;
        Ok(())
    }

    /// Frees the sectors of an entry that leaves a draft, unless the entry is also in the store's
    /// current list.
    pub(crate) fn leave(&mut self, placed: &PlacedEntry)
        requires indexed { IsIndex self.old.entries.items self.old.index }
        requires spellings { HaveSpellings self.old.entries.items }
        requires names { HaveOwnNames self.old.entries.items }
        requires fits { EntryHasSpelling placed.now.entry }
        requires same { IsOneOrApart self.old.entries.items placed.now }
        requires held { AreClaimedOnce self.old.layout
            (own_in self.old.entries.items placed.now) }
        ensures kept { self.new ≡ with_layout self.old self.new.layout }
        ensures freed { IsReleased self.old.layout self.new.layout
            (own_in self.old.entries.items placed.now) }
    {
        if !has_entry(&self.entries, &self.index, placed) {
            give_back(&mut self.layout, placed);
        }
    }

    /// Frees the sectors of all entries of a draft that aren't in the store's current list.
    pub(crate) fn leave_all(&mut self, entries: &[PlacedEntry])
        requires indexed { IsIndex self.old.entries.items self.old.index }
        requires spellings { HaveSpellings self.old.entries.items }
        requires names { HaveOwnNames self.old.entries.items }
        requires fits { HaveSpellings entries.now }
        requires same { All (IsOneOrApart self.old.entries.items) entries.now }
        requires held { AreClaimedOnce self.old.layout
            (own_sectors_in self.old.entries.items entries.now) }
        ensures kept { self.new ≡ with_layout self.old self.new.layout }
        ensures freed { IsReleased self.old.layout self.new.layout
            (own_sectors_in self.old.entries.items entries.now) }
    {
        for placed in entries {
            self.leave(placed);
        }
    }

    /// Makes the draft's list the store's list, with the root `root`, and frees the sectors that
    /// the store no longer uses.
    pub(crate) fn enter(&mut self, root: Root, draft: Draft)
        requires index { IsIndex draft.entries.items draft.index }
        requires can { CanReleaseUnlisted self.old.root self.old.entries.items draft.entries.items
            self.old.held self.old.layout }
        ensures root { self.new.root ≡ root }
        ensures entries { self.new.entries ≡ draft.entries }
        ensures sectors { self.new.sectors ≡ draft.sectors }
        ensures index { self.new.index ≡ draft.index }
        ensures usable { IsFalse self.new.failed }
        ensures settled { ReleasesUnlisted self.old.root self.old.entries.items draft.entries.items
            self.old.held self.new.held self.old.layout self.new.layout }
    {
        release_unlisted(
            &self.root,
            &self.entries,
            &draft,
            &mut self.held,
            &mut self.layout,
        );
        let Draft {
            entries,
            sectors,
            index,
            preloads: _,
            touched: _,
        } = draft;
        self.root = root;
        self.entries = entries;
        self.sectors = sectors;
        self.index = index;
        self.failed = false;
    }
}
