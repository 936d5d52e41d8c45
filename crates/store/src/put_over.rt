// Replaces the bytes of a byte string.
use crate::change::{Change, Staged};
use crate::edit::Edit;
use crate::kept::Kept;
use crate::next::next_root;
use crate::prepared::Prepared;
use crate::put::take_put;
use crate::refusal::StoreRefusal;
use crate::store::Store;
use roots::catalogues_for;
use sector_disk::Disk;

impl Kept {
    ghost use Rattle.std.specs.Prelude.{[], IfOk, IsFalse, List, ℕ, length};
    ghost use Rattle.sector_disk.specs.Disk.{Sector};
    ghost use Rattle.states.specs.Changes.{with_bytes};
    ghost use Rattle.states.specs.State.{State};
    ghost use Rattle.store.specs.declared.edit.Edit.TheVariants.{Replace};
    ghost use Rattle.store.specs.Names.{IsFileSize};
    ghost use Rattle.store.specs.Step.{refusal_of_put, IsExactAnswer, IsRefusalOfPutOver};
    ghost use Rattle.store.specs.inside.Prepared.{StandsAt, Makes, Prepares, Puts, done_of};
    ghost use Rattle.store.specs.inside.Stored.{IsCounted, IsStored, longest_in, sectors_for};

    /// Prepares to replace the bytes under a name. Refuses with S2, S10, S7 or S8.
    pub(crate) fn prepare_over(
        &mut self,
        name: &[u8],
        bytes: &[u8],
    ) -> Result<Prepared, StoreRefusal>
        requires stored { IsStored self.old.root.sectors self.old }
        requires present { (position : ℕ) × StandsAt self.old.entries.items name.now position }
        requires size { IsFileSize (length bytes.now) }
        ensures prepares { Prepares self.old self.new IsRefusalOfPutOver result }
        ensures makes { (now : List Sector) → (s : State) → IfOk result (λ prepared.
            Makes now [] self.old prepared bytes.now s (with_bytes name.now bytes.now s)) }
        ensures puts { IfOk result (λ prepared. (position : ℕ)
            × StandsAt self.old.entries.items name.now position
            × Puts self.old prepared (Replace position) (length self.old.entries.items) bytes.now) }
        ensures refused { IsFalse self.old.failed → (s : State)
            → IsCounted self.old.root self.old.entries.items self.old.held self.old.layout s
            → IsExactAnswer
            (refusal_of_put (sectors_for self.old) (longest_in self.old) s bytes.now)
            (done_of result) }
    {
        self.test_change()?;
        let Some(position) = self.index.position_of(&self.entries, name) else {
            unreachable!();
        };
        let libraries = self.entries.len();
        let count = catalogues_for(libraries);
        let room = take_put(&mut self.layout, name, bytes, count, 0)?;
        let root = next_root(&self.root, libraries, room.catalogues.as_slice());
        let change = Change {
            staged: Staged::Put(room.put, room.catalogues),
            root,
        };
        Ok(Prepared {
            change,
            edit: Edit::Replace(position, room.put),
        })
    }
}

impl<D: Disk> Store<D> {
    ghost use Rattle.std.specs.Prelude.{◌≡◌, ◌+◌, ◌⊎◌, length, OnOk};
    ghost use Rattle.std.specs.Int.{div_ceil};
    ghost use Rattle.sector_disk.specs.Disk.{sector_bytes, LeavesOnly};
    ghost use Rattle.states.specs.Cost.{catalogues_for};
    ghost use Rattle.store.specs.Changed.{Changed};
    ghost use Rattle.store.specs.Holds.{KeepsHeld, room_of};
    ghost use Rattle.store.specs.Names.{HasName, IsFileSize};
    ghost use Rattle.store.specs.Opened.{IsAt};
    ghost use Rattle.store.specs.Taken.{IsPutOver};
    ghost use Rattle.store.specs.Stands.{Stands};
    ghost use Rattle.states.specs.State.{State};
    ghost use Rattle.states.specs.Changes.{with_bytes};
    ghost use Rattle.store.specs.Step.{longest_unused, refusal_of_put};
    ghost use Rattle.store.specs.Step.{IsExactAnswer, IsRefusalOfPutOver};

    /// Replaces the bytes under the name `name` with `bytes`, which are 64 bytes to 16 MiB. The
    /// sectors of the old bytes become unused as soon as the change is done and nobody holds the
    /// old bytes. Allocates nothing. Refuses with S2, S10, S7, S8 or S1; only S1 may come after the
    /// first write.
    pub fn put_over(&mut self, name: &[u8], bytes: &[u8]) -> Result<(), StoreRefusal>
        requires present { HasName self.old name.now }
        requires size { IsFileSize (length bytes.now) }

        // A stop at any moment leaves the state before the put or the state after it.
        ensures any_moment { (s : State) → IsAt D.facts self.old s
            → LeavesOnly (D.facts self.old.disk) (D.facts self.new.disk)
            (λ m. Stands m s ⊎ Stands m (with_bytes name.now bytes.now s)) }
        ensures ok { (s : State) → IsAt D.facts self.old s
            → OnOk result (IsAt D.facts self.new (with_bytes name.now bytes.now s)) }
        ensures refused { (s : State) → IsAt D.facts self.old s → IsExactAnswer
            (refusal_of_put (room_of self.old) (longest_unused self.old) s bytes.now) result }

        // The put takes sectors for the bytes first, then one for the entry, and then those for the
        // catalogues. On an honest disk, the sectors for the bytes have the bytes after the put,
        // followed by zeros.
        ensures placed { OnOk result
            (IsPutOver D.facts self.old self.new name.now bytes.now) }

        // Held byte strings keep their holders and their bytes.
        ensures held { KeepsHeld D.facts self.old self.new }

        // This clause holds on any disk, honest or not. After a failed call of the disk, the store
        // has to be opened again.
        ensures on_any_disk { Changed D.facts StoreRefusal.Device StoreRefusal.Reopen
            self.old self.new (div_ceil (length bytes.now) sector_bytes
            + catalogues_for (length self.old.entries) + 4)
            IsRefusalOfPutOver result }
    {
        let prepared = self.kept.prepare_over(name, bytes)?;
        self.kept.make(&mut self.disk, &prepared, bytes)
    }
}
