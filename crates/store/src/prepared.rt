// A change has two steps. The first step, preparing, makes the tests, allocates memory and claims
// sectors. The second step, making, is refused only with S1.
use crate::change::Change;
use crate::edit::Edit;
use crate::kept::Kept;
use crate::refusal::StoreRefusal;
use sector_disk::Disk;

/// A prepared change: its writes, to sectors that are already claimed, and its change of the list.
#[derive(Drop)]
pub(crate) struct Prepared {
    pub change: Change,
    pub edit: Edit,
}

impl Kept {
    ghost use Rattle.std.specs.Prelude.{◌≡◌, ◌+◌, ◌⊎◌, List, IsTrue, OnErr, OnOk};
    ghost use Rattle.sector_disk.specs.Disk.{Sector, Mixture, LeavesOnly};
    ghost use Rattle.states.specs.State.{State};
    ghost use Rattle.store.specs.declared.placed_entry.PlacedEntry.{PlacedEntry};
    ghost use Rattle.store.specs.Changed.{Changed};
    ghost use Rattle.store.specs.Holds.{KeepsHolders};
    ghost use Rattle.store.specs.Opened.{IsAt};
    ghost use Rattle.store.specs.Stands.{Stands};
    ghost use Rattle.store.specs.inside.Change.{HasBytes, staged_calls};
    ghost use Rattle.store.specs.inside.Prepared.{IsMade, IsReady, Makes};
    ghost use Rattle.store.specs.inside.Stored.{IsStored, opened};

    /// Makes a prepared change, with the bytes `bytes` if it puts a byte string. Refuses only with
    /// S1, and then frees the sectors that the change took.
    pub(crate) fn make<D: Disk>(
        &mut self,
        disk: &mut D,
        prepared: &Prepared,
        bytes: &[u8],
    ) -> Result<(), StoreRefusal>
        requires { IsReady (D.facts disk.old).sectors self.old prepared.now }
        ensures stored { IsStored (D.facts disk.new).sectors self.new }

        // A stop at any moment leaves the state before the change or the state after it.
        ensures any_moment { (written : List PlacedEntry) → (s s' : State)
            → IsAt D.facts (opened disk.old self.old) s
            → Makes (D.facts disk.old).now written self.old prepared.now bytes.now s s'
            → LeavesOnly (D.facts disk.old) (D.facts disk.new) (λ m. Stands m s ⊎ Stands m s') }
        ensures ok { (written : List PlacedEntry) → (s s' : State)
            → IsAt D.facts (opened disk.old self.old) s
            → Makes (D.facts disk.old).now written self.old prepared.now bytes.now s s'
            → OnOk result (IsAt D.facts (opened disk.new self.new) s') }
        ensures made { OnOk result (IsMade self.old self.new prepared.now) }
        ensures given_up { OnErr result ((self.new.root ≡ self.old.root)
            × (self.new.entries ≡ self.old.entries) × (self.new.held ≡ self.old.held)) }
        ensures written { OnOk result (IsTrue (D.facts disk.old).honest
            → (m : List Sector) → Mixture (D.facts disk.new) m
            → HasBytes m prepared.now.change.staged bytes.now) }
        ensures held { KeepsHolders (D.facts disk.old) (D.facts disk.new)
            self.old.held self.new.held }
        ensures on_any_disk { Changed D.facts StoreRefusal.Device StoreRefusal.Reopen
            (opened disk.old self.old) (opened disk.new self.new)
            (staged_calls prepared.now.change.staged + 2) (λ e. e ≡ StoreRefusal.Device) result }
    {
        let Prepared { change, edit } = prepared;
        self.failed = true;
        edit.list(&mut self.sectors);
        let written = change.carry_out(disk, &mut self.singles, bytes, &self.sectors);
        if let Err(fault) = written {
            change.give_back(&mut self.layout);
            return Err(StoreRefusal::from(fault));
        }
        edit.release_replaced(&self.root, &self.entries, &mut self.held, &mut self.layout);
        edit.enter(&mut self.entries, &mut self.index);
        self.root = change.root;
        self.failed = false;
        Ok(())
    }
}
