// Puts a byte string after all other byte strings.
use crate::change::{Change, Staged};
use crate::edit::Edit;
use crate::kept::Kept;
use crate::listed::catalogues;
use crate::next::next_root;
use crate::prepared::Prepared;
use crate::put::{reserve_one, take_put};
use crate::refusal::StoreRefusal;
use crate::store::Store;
use roots::catalogues_for;
use sector_disk::Disk;

impl Kept {
    ghost use Rattle.std.specs.Prelude.{◌≢◌, ◌+◌, [], All, IfOk, IsFalse, List, length};
    ghost use Rattle.sector_disk.specs.Disk.{Sector};
    ghost use Rattle.states.specs.Changes.{with_new};
    ghost use Rattle.states.specs.State.{State};
    ghost use Rattle.store.specs.declared.edit.Edit.TheVariants.{Append};
    ghost use Rattle.store.specs.Names.{IsName, IsFileSize};
    ghost use Rattle.store.specs.Stands.{name_of};
    ghost use Rattle.store.specs.Step.{refusal_of_new, IsAnswer, IsRefusalOfPutNew};
    ghost use Rattle.store.specs.inside.Prepared.{Makes, Prepares, Puts, done_of};
    ghost use Rattle.store.specs.inside.Stored.{IsCounted, IsStored, longest_in, sectors_for};

    /// Prepares to put a byte string after all other byte strings. Refuses with S2, S9, S10, S11,
    /// S7 or S8.
    pub(crate) fn prepare_new(
        &mut self,
        name: &[u8],
        bytes: &[u8],
    ) -> Result<Prepared, StoreRefusal>
        requires stored { IsStored self.old.root.sectors self.old }
        requires name { IsName name.now }
        requires size { IsFileSize (length bytes.now) }
        requires new { All (λ placed. name_of placed.entry ≢ name.now) self.old.entries.items }
        ensures prepares { Prepares self.old self.new IsRefusalOfPutNew result }
        ensures makes { (now : List Sector) → (s : State) → IfOk result (λ prepared.
            Makes now [] self.old prepared bytes.now s (with_new name.now bytes.now s)) }
        ensures puts { IfOk result (λ prepared. Puts self.old prepared Append
            (length self.old.entries.items + 1) bytes.now) }
        ensures refused { IsFalse self.old.failed → (s : State)
            → IsCounted self.old.root self.old.entries.items self.old.held self.old.layout s
            → IsAnswer (refusal_of_new (sectors_for self.old) (longest_in self.old) s bytes.now)
            (done_of result) }
    {
        self.test_new()?;
        reserve_one(&mut self.index, &mut self.entries, &mut self.sectors)?;
        let libraries = self.entries.len() + 1;
        let count = catalogues_for(libraries);
        let spare = count - catalogues(&self.root).len();
        let room = take_put(&mut self.layout, name, bytes, count, spare)?;
        let root = next_root(&self.root, libraries, room.catalogues.as_slice());
        let change = Change {
            staged: Staged::Put(room.put, room.catalogues),
            root,
        };
        Ok(Prepared {
            change,
            edit: Edit::Append(room.put),
        })
    }
}

impl<D: Disk> Store<D> {
    ghost use Rattle.std.specs.Prelude.{◌≡◌, ◌+◌, ◌⊎◌, length, OnOk};
    ghost use Rattle.std.specs.Int.{div_ceil};
    ghost use Rattle.sector_disk.specs.Disk.{sector_bytes, LeavesOnly};
    ghost use Rattle.states.specs.Cost.{catalogues_for};
    ghost use Rattle.store.specs.Changed.{Changed};
    ghost use Rattle.store.specs.Holds.{KeepsHeld, room_of};
    ghost use Rattle.store.specs.Names.{IsName, IsFileSize, LacksName};
    ghost use Rattle.store.specs.Opened.{IsAt};
    ghost use Rattle.store.specs.Taken.{IsPutBehind};
    ghost use Rattle.store.specs.Stands.{Stands};
    ghost use Rattle.states.specs.State.{State};
    ghost use Rattle.states.specs.Changes.{with_new};
    ghost use Rattle.store.specs.Step.{longest_unused, refusal_of_new, IsAnswer, IsRefusalOfPutNew};

    /// Puts a byte string of 64 bytes to 16 MiB after all other byte strings. No other byte string
    /// may have the name `name`. Refuses with S2, S9, S10, S7, S8, S11 or S1; only S1 may come
    /// after the first write.
    pub fn put_new(&mut self, name: &[u8], bytes: &[u8]) -> Result<(), StoreRefusal>
        requires name { IsName name.now }
        requires size { IsFileSize (length bytes.now) }
        requires new { LacksName self.old name.now }

        // A stop at any moment leaves the state before the put or the state after it.
        ensures any_moment { (s : State) → IsAt D.facts self.old s
            → LeavesOnly (D.facts self.old.disk) (D.facts self.new.disk)
            (λ m. Stands m s ⊎ Stands m (with_new name.now bytes.now s)) }
        ensures ok { (s : State) → IsAt D.facts self.old s
            → OnOk result (IsAt D.facts self.new (with_new name.now bytes.now s)) }
        ensures refused { (s : State) → IsAt D.facts self.old s → IsAnswer
            (refusal_of_new (room_of self.old) (longest_unused self.old) s bytes.now) result }

        // The put takes sectors for the bytes first, then one for the entry, and then those for the
        // catalogues. On an honest disk, the sectors for the bytes have the bytes after the put,
        // followed by zeros.
        ensures placed { OnOk result
            (IsPutBehind D.facts self.old self.new bytes.now) }

        // Held byte strings keep their holders and their bytes.
        ensures held { KeepsHeld D.facts self.old self.new }

        // This clause holds on any disk, honest or not. After a failed call of the disk, the store
        // has to be opened again.
        ensures on_any_disk { Changed D.facts StoreRefusal.Device StoreRefusal.Reopen
            self.old self.new (div_ceil (length bytes.now) sector_bytes
            + catalogues_for (length self.old.entries + 1) + 4)
            IsRefusalOfPutNew result }
    {
        let prepared = self.kept.prepare_new(name, bytes)?;
        self.kept.make(&mut self.disk, &prepared, bytes)
    }
}
