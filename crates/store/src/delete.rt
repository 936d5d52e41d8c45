// Removes a byte string.
use crate::change::{Change, Staged};
use crate::edit::Edit;
use crate::kept::Kept;
use crate::next::root_without;
use crate::prepared::Prepared;
use crate::refusal::StoreRefusal;
use crate::room::take_catalogues;
use crate::store::Store;
use roots::catalogues_for;
use sector_disk::Disk;

impl Kept {
    ghost use Rattle.std.specs.Prelude.{◌≢◌, [], All, IfOk, IsFalse, List, ℕ, slice_index_or};
    ghost use Rattle.sector_disk.specs.Disk.{Sector};
    ghost use Rattle.roots.specs.Root.{listed_preloads};
    ghost use Rattle.states.specs.Changes.{without};
    ghost use Rattle.states.specs.State.{State};
    ghost use Rattle.store.specs.declared.placed_entry.PlacedEntry.{PlacedEntry};
    ghost use Rattle.store.specs.Stands.{name_of};
    ghost use Rattle.store.specs.Step.{refusal_of_change, IsExactAnswer, IsRefusalOfChange};
    ghost use Rattle.store.specs.inside.Prepared.{StandsAt, Makes, Prepares, TakesOut, done_of};
    ghost use Rattle.store.specs.inside.Stored.{IsCounted, IsStored};

    /// Prepares the removal of a byte string that isn't a preload. Refuses with S2 or S10.
    pub(crate) fn prepare_delete(&mut self, name: &[u8]) -> Result<Prepared, StoreRefusal>
        requires stored { IsStored self.old.root.sectors self.old }
        requires present { (position : ℕ) × StandsAt self.old.entries.items name.now position }
        requires no_preload { All (λ position. (d : PlacedEntry)
            → name_of (slice_index_or self.old.entries.items position d).entry ≢ name.now)
            (listed_preloads self.old.root) }
        ensures prepares { Prepares self.old self.new IsRefusalOfChange result }
        ensures makes { (now : List Sector) → (s : State) → IfOk result (λ prepared.
            Makes now [] self.old prepared [] s (without name.now s)) }
        ensures takes { IfOk result (λ prepared. TakesOut self.old prepared name.now) }
        ensures refused { IsFalse self.old.failed → (s : State)
            → IsCounted self.old.root self.old.entries.items self.old.held self.old.layout s
            → IsExactAnswer (refusal_of_change s) (done_of result) }
    {
        self.test_change()?;
        let Some(position) = self.index.position_of(&self.entries, name) else {
            unreachable!();
        };
        let libraries = self.entries.len() - 1;
        let taken = take_catalogues(&mut self.layout, catalogues_for(libraries));
        let root = root_without(&self.root, libraries, taken.as_slice(), position);
        let change = Change {
            staged: Staged::Catalogues(taken),
            root,
        };
        Ok(Prepared {
            change,
            edit: Edit::Remove(position),
        })
    }
}

impl<D: Disk> Store<D> {
    ghost use Rattle.std.specs.Prelude.{◌≡◌, ◌+◌, ◌-◌, ◌⊎◌, length, OnOk};
    ghost use Rattle.sector_disk.specs.Disk.{LeavesOnly};
    ghost use Rattle.states.specs.Cost.{catalogues_for};
    ghost use Rattle.store.specs.Changed.{Changed};
    ghost use Rattle.store.specs.Holds.{KeepsHeld};
    ghost use Rattle.store.specs.Names.{HasName, IsNoPreload};
    ghost use Rattle.store.specs.Opened.{IsAt};
    ghost use Rattle.store.specs.Taken.{IsTakenOut};
    ghost use Rattle.store.specs.Stands.{Stands};
    ghost use Rattle.states.specs.State.{State};
    ghost use Rattle.states.specs.Changes.{without};
    ghost use Rattle.store.specs.Step.{refusal_of_change, IsExactAnswer, IsRefusalOfChange};

    /// Removes the byte string with the name `name`, which isn't a preload. The byte strings after
    /// it move up by one position, and the preloads keep their names. Allocates nothing, and takes
    /// no sectors that it could lack. Refuses with S2, S10 or S1; only S1 may come after the first
    /// write.
    pub fn delete(&mut self, name: &[u8]) -> Result<(), StoreRefusal>
        requires present { HasName self.old name.now }
        requires no_preload { IsNoPreload self.old name.now }

        // A stop at any moment leaves the state before the removal or the state after it.
        ensures any_moment { (s : State) → IsAt D.facts self.old s
            → LeavesOnly (D.facts self.old.disk) (D.facts self.new.disk)
            (λ m. Stands m s ⊎ Stands m (without name.now s)) }
        ensures ok { (s : State) → IsAt D.facts self.old s
            → OnOk result (IsAt D.facts self.new (without name.now s)) }
        ensures refused { (s : State) → IsAt D.facts self.old s
            → IsExactAnswer (refusal_of_change s) result }

        // The catalogues of the remaining list are written to sectors that were unused before.
        ensures placed { OnOk result (IsTakenOut self.old self.new name.now) }

        // Held byte strings keep their holders and their bytes.
        ensures held { KeepsHeld D.facts self.old self.new }

        // This clause holds on any disk, honest or not. After a failed call of the disk, the store
        // has to be opened again.
        ensures on_any_disk { Changed D.facts StoreRefusal.Device StoreRefusal.Reopen
            self.old self.new (catalogues_for (length self.old.entries - 1) + 3)
            IsRefusalOfChange result }
    {
        let prepared = self.kept.prepare_delete(name)?;
        self.kept.make(&mut self.disk, &prepared, &[])
    }
}
