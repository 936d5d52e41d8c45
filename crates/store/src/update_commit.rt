// The commit of an update.
use crate::change::{Change, Staged};
use crate::draft::{Draft, Touched};
use crate::edit::Edit;
use crate::kept::Kept;
use crate::listed::catalogues;
use crate::next::root_over;
use crate::prepared::Prepared;
use crate::refusal::StoreRefusal;
use crate::room::take_catalogues;
use crate::store::Store;
use crate::update::Update;
use roots::catalogues_for;
use sector_disk::Disk;

impl Kept {
    ghost use Rattle.std.specs.Prelude.{◌≡◌, IsFalse};
    ghost use Rattle.store.specs.inside.Committed.{Commits};
    ghost use Rattle.store.specs.inside.Draft.{IsDrafting, drafting};
    ghost use Rattle.store.specs.inside.Stored.{IsStored, opened};

    /// Commits a draft's preloads; the list stays the current one. Refuses with S1.
    fn commit_preloads<D: Disk>(&mut self, disk: &mut D, draft: &Draft) -> Result<(), StoreRefusal>
        requires drafting { IsDrafting (D.facts disk.old).sectors self.old draft.now }
        requires usable { IsFalse self.old.failed }
        requires preloads { draft.now.touched ≡ Touched.Preloads }
        ensures stored { IsStored (D.facts disk.new).sectors self.new }
        ensures commits { Commits D.facts (drafting disk.old self.old draft.now)
            (opened disk.new self.new) result }
    {
        let listed = catalogues(&self.root);
        let preloads = draft.preloads.as_slice();
        let root = root_over(&self.root, self.entries.len(), listed, preloads);
        let change = Change {
            staged: Staged::Nothing,
            root,
        };
        let prepared = Prepared {
            change,
            edit: Edit::Nothing,
        };
        self.make(disk, &prepared, &[])
    }

    /// Commits a draft's list, whose byte strings have already been written. Refuses with S1, and
    /// then gives the draft up.
    fn commit_list<D: Disk>(&mut self, disk: &mut D, draft: Draft) -> Result<(), StoreRefusal>
        requires drafting { IsDrafting (D.facts disk.old).sectors self.old draft }
        requires usable { IsFalse self.old.failed }
        requires list { draft.touched ≡ Touched.List }
        ensures stored { IsStored (D.facts disk.new).sectors self.new }
        ensures commits { Commits D.facts (drafting disk.old self.old draft)
            (opened disk.new self.new) result }
    {
        let libraries = draft.entries.len();
        let taken = take_catalogues(&mut self.layout, catalogues_for(libraries));
        let preloads = draft.preloads.as_slice();
        let root = root_over(&self.root, libraries, taken.as_slice(), preloads);
        let change = Change {
            staged: Staged::Catalogues(taken),
            root,
        };
        self.failed = true;
        let made = change.carry_out(disk, &mut self.singles, &[], &draft.sectors);
        if let Err(fault) = made {
            change.give_back(&mut self.layout);
            self.leave_all(&draft.entries);
            return Err(StoreRefusal::from(fault));
        }
        self.enter(change.root, draft);
        Ok(())
    }

    /// Commits a draft. Refuses with S2 or S1.
    fn commit_draft<D: Disk>(&mut self, disk: &mut D, draft: Draft) -> Result<(), StoreRefusal>
        requires drafting { IsDrafting (D.facts disk.old).sectors self.old draft }
        ensures stored { IsStored (D.facts disk.new).sectors self.new }
        ensures commits { Commits D.facts (drafting disk.old self.old draft)
            (opened disk.new self.new) result }
    {
        if self.failed {
            self.leave_all(&draft.entries);
            return Err(StoreRefusal::Reopen);
        }
        match draft.touched {
            Touched::Nothing => Ok(()),
            Touched::Preloads => self.commit_preloads(disk, &draft),
            Touched::List => self.commit_list(disk, draft),
        }
    }
}

impl<D: Disk> Update<D> {
    ghost use Rattle.std.specs.Prelude.{◌≡◌, ◌≢◌, ◌⊎◌, ◌↔◌, Err, IfErr, IsTrue, OnErr, OnOk};
    ghost use Rattle.std.specs.Prelude.{length};
    ghost use Rattle.sector_disk.specs.Disk.{LeavesOnly};
    ghost use Rattle.roots.specs.Root.{listed_preloads};
    ghost use Rattle.states.specs.State.{State};
    ghost use Rattle.store.specs.Changed.{Changed};
    ghost use Rattle.store.specs.Draft.{IsDraftedAt, commit_calls, committed, layout_drafted};
    ghost use Rattle.store.specs.Holds.{KeepsHeld};
    ghost use Rattle.store.specs.Opened.{IsAt};
    ghost use Rattle.store.specs.Stands.{Stands, catalogues_of};
    ghost use Rattle.store.specs.Taken.{AreTaken};

    /// Commits the draft: writes the catalogues of its list, syncs, writes the next root, and
    /// syncs. If the update changed only the preloads, writes the root with the same catalogues. If
    /// the update changed nothing, writes nothing. Allocates nothing, and takes no sectors that it
    /// could lack. Refuses with S2 or S1, and then gives the draft up. After S1, the disk may hold
    /// the draft's state, and the store has to be opened again.
    pub fn commit(self) -> (Result<(), StoreRefusal>, Store<D>)
        // A stop at any moment leaves the current state or the draft's state.
        ensures any_moment { (s d : State) → IsDraftedAt D.facts self s d
            → LeavesOnly (D.facts self.store.disk) (D.facts result.1.disk)
            (λ m. Stands m s ⊎ Stands m (committed self.touched s d)) }
        ensures ok { (s d : State) → IsDraftedAt D.facts self s d → OnOk result.0
            (IsAt D.facts result.1 (committed self.touched s d)) }

        // Held byte strings keep their holders and their bytes.
        ensures held { KeepsHeld D.facts self.store result.1 }

        // This clause holds on any disk, honest or not. After a failed call of the disk, the store
        // has to be opened again.
        ensures on_any_disk { Changed D.facts StoreRefusal.Device StoreRefusal.Reopen
            self.store result.1 (commit_calls self.touched (length self.entries))
            (λ e. (e ≡ StoreRefusal.Device) ⊎ (e ≡ StoreRefusal.Reopen)) result.0 }
        ensures entries { OnOk result.0 (result.1.entries ≡ self.entries) }
        ensures preloads { OnOk result.0 (listed_preloads result.1.root ≡ self.preloads) }

        // If the update changed the list, the catalogues are in sectors that were unused before.
        // Otherwise the catalogues stay the same.
        ensures placed { OnOk result.0 (self.touched ≡ Touched.List
            → AreTaken (layout_drafted self) (catalogues_of result.1.root)) }
        ensures catalogues { OnOk result.0 (self.touched ≢ Touched.List
            → catalogues_of result.1.root ≡ catalogues_of self.store.root) }
        ensures given_up { OnErr result.0 ((result.1.root ≡ self.store.root)
            × (result.1.entries ≡ self.store.entries) × (result.1.held ≡ self.store.held)) }

        // If the update changed nothing, the store is unchanged.
        ensures same { self.touched ≡ Touched.Nothing → result.1 ≡ self.store }
    {
        let Update { disk, kept, draft } = self;
        let mut disk = disk;
        let mut kept = kept;
        let made = kept.commit_draft(&mut disk, draft);
        (made, Store { disk, kept })
    }
}
