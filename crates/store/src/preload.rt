// Chooses the preloads.
use crate::change::{Change, Staged};
use crate::edit::Edit;
use crate::kept::Kept;
use crate::next::with_preloads;
use crate::prepared::Prepared;
use crate::refusal::StoreRefusal;
use crate::store::Store;
use sector_disk::Disk;

impl Kept {
    ghost use Rattle.std.specs.Prelude.{◌≡◌, ◌<◌, ◌≤◌, [], All, IfOk, IsFalse, List, length};
    ghost use Rattle.sector_disk.specs.Disk.{Sector};
    ghost use Rattle.extents.specs.Extent.{AreDistinct};
    ghost use Rattle.states.specs.Changes.{with_preloads};
    ghost use Rattle.states.specs.Limits.{most_preloads};
    ghost use Rattle.states.specs.State.{State};
    ghost use Rattle.store.specs.Stands.{catalogues_of, names_at};
    ghost use Rattle.store.specs.Step.{refusal_of_change, IsExactAnswer, IsRefusalOfChange};
    ghost use Rattle.store.specs.declared.change.Staged.TheVariants as staged;
    ghost use Rattle.store.specs.inside.Prepared.{Makes, Prepares, done_of};
    ghost use Rattle.store.specs.inside.Stored.{IsCounted, IsStored};

    /// Prepares to make the byte strings at `positions` the preloads. Refuses with S2 or S10.
    pub(crate) fn prepare_preloads(&mut self, positions: &[usize]) -> Result<Prepared, StoreRefusal>
        requires stored { IsStored self.old.root.sectors self.old }
        requires few { length positions.now ≤ most_preloads }
        requires inside { All (λ position. position < length self.old.entries.items)
            positions.now }
        requires distinct { AreDistinct positions.now }
        ensures prepares { Prepares self.old self.new IsRefusalOfChange result }
        ensures makes { (now : List Sector) → (s : State) → IfOk result (λ prepared.
            Makes now [] self.old prepared [] s
            (with_preloads (names_at s.libraries positions.now) s)) }
        ensures stages { IfOk result (λ prepared. prepared.change.staged ≡ staged.Nothing) }
        ensures catalogues { IfOk result (λ prepared.
            catalogues_of prepared.change.root ≡ catalogues_of self.old.root) }
        ensures refused { IsFalse self.old.failed → (s : State)
            → IsCounted self.old.root self.old.entries.items self.old.held self.old.layout s
            → IsExactAnswer (refusal_of_change s) (done_of result) }
    {
        self.test_change()?;
        let change = Change {
            staged: Staged::Nothing,
            root: with_preloads(&self.root, positions),
        };
        Ok(Prepared {
            change,
            edit: Edit::Nothing,
        })
    }
}

impl<D: Disk> Store<D> {
    ghost use Rattle.std.specs.Prelude.{◌≡◌, ◌<◌, ◌≤◌, ◌⊎◌, length, All, OnOk};
    ghost use Rattle.extents.specs.Extent.{AreDistinct};
    ghost use Rattle.states.specs.Limits.{most_preloads};
    ghost use Rattle.sector_disk.specs.Disk.{LeavesOnly};
    ghost use Rattle.store.specs.Changed.{Changed};
    ghost use Rattle.store.specs.Holds.{KeepsHeld};
    ghost use Rattle.store.specs.Opened.{IsAt};
    ghost use Rattle.store.specs.Stands.{Stands, catalogues_of, names_at};
    ghost use Rattle.states.specs.State.{State};
    ghost use Rattle.states.specs.Changes.{with_preloads};
    ghost use Rattle.store.specs.Step.{refusal_of_change, IsExactAnswer, IsRefusalOfChange};

    /// Makes the byte strings at `positions` the preloads, in this order. There are at most 16
    /// positions, and none occurs twice. Allocates nothing and takes no sectors. Refuses with S2,
    /// S10 or S1; only S1 may come after the first write.
    pub fn set_preloads(&mut self, positions: &[usize]) -> Result<(), StoreRefusal>
        requires few { length positions.now ≤ most_preloads }
        requires inside { All (λ position. position < length self.old.entries) positions.now }
        requires distinct { AreDistinct positions.now }

        // A stop at any moment leaves the state before the change or the state after it.
        ensures any_moment { (s : State) → IsAt D.facts self.old s
            → LeavesOnly (D.facts self.old.disk) (D.facts self.new.disk)
            (λ m. Stands m s ⊎ Stands m (with_preloads (names_at s.libraries positions.now) s)) }
        ensures ok { (s : State) → IsAt D.facts self.old s → OnOk result
            (IsAt D.facts self.new (with_preloads (names_at s.libraries positions.now) s)) }
        ensures refused { (s : State) → IsAt D.facts self.old s
            → IsExactAnswer (refusal_of_change s) result }

        // The catalogues stay the same.
        ensures catalogues { OnOk result
            (catalogues_of self.new.root ≡ catalogues_of self.old.root) }

        // Held byte strings keep their holders and their bytes.
        ensures held { KeepsHeld D.facts self.old self.new }

        // This clause holds on any disk, honest or not. After a failed call of the disk, the store
        // has to be opened again.
        ensures on_any_disk { Changed D.facts StoreRefusal.Device StoreRefusal.Reopen
            self.old self.new 2 IsRefusalOfChange result }
    {
        let prepared = self.kept.prepare_preloads(positions)?;
        self.kept.make(&mut self.disk, &prepared, &[])
    }
}
