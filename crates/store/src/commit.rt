// Turns a store of version 1, which was found on a disk, into a store of version 2.
use crate::change::{Change, Staged};
use crate::next::next_root;
use crate::old_store::OldStore;
use crate::refusal::StoreRefusal;
use crate::room::take_catalogues;
use crate::store::Store;
use roots::catalogues_for;
use sector_disk::Disk;

impl<D: Disk> OldStore<D> {
    ghost use Rattle.std.specs.Prelude.{◌≡◌, ◌≢◌, ◌+◌, ◌<◌, ◌≤◌, ◌⊎◌, IsFalse, IfOk};
    ghost use Rattle.std.specs.Prelude.{[], IfErr, length};
    ghost use Rattle.sector_disk.specs.Disk.{LeavesOnly, AreCallsExactly, AreCallsAtMost};
    ghost use Rattle.roots.specs.Limits.{most_root_entries};
    ghost use Rattle.states.specs.Cost.{catalogues_for};
    ghost use Rattle.store.specs.Opened.{IsAt, IsOldAt, disk_after};
    ghost use Rattle.store.specs.Taken.{IsRelisted};
    ghost use Rattle.store.specs.Stands.{Stands, StandsOld};
    ghost use Rattle.states.specs.State.{State};
    ghost use Rattle.store.specs.Step.{refusal_of_upgrade, answer_of, IsExactAnswer};
    ghost use Rattle.store.specs.Step.{IsRefusalOfCommit};
    ghost use Rattle.store.specs.Upgraded.{upgraded};

    /// Turns this store into a store of version 2 with the same byte strings and preloads: writes
    /// catalogues of these byte strings, and the next root. Refuses with S10 or S7 before the first
    /// write, or with S1. A refusal returns the disk too. Allocates nothing.
    pub fn commit(self) -> Result<Store<D>, (StoreRefusal, D)>
        // A stop at any moment leaves the old state, which version 1 holds, or the state after the
        // commit.
        ensures any_moment { (s : State) → IsOldAt D.facts self s
            → LeavesOnly (D.facts self.disk) (D.facts (disk_after result))
            (λ m. StandsOld m s ⊎ Stands m (upgraded s)) }
        ensures ok { (s : State) → IsOldAt D.facts self s
            → IfOk result (λ store. IsAt D.facts store (upgraded s)) }
        ensures refused { (s : State) → IsOldAt D.facts self s
            → IsExactAnswer (refusal_of_upgrade self.root.sectors s) (answer_of result) }

        // The sectors of the new catalogues were unused before.
        ensures placed { IfOk result (λ store. IsRelisted self store) }

        // The clauses from here on hold on any disk, honest or not.
        ensures unheld { IfOk result (λ store. store.held ≡ []) }
        ensures usable { IfOk result (λ store. IsFalse store.failed) }
        ensures refusals { IfErr result (λ e. IsRefusalOfCommit e.0) }
        ensures device { IfErr result (λ e. e.0 ≡ StoreRefusal.Device
            → (D.facts self.disk).failures < (D.facts e.1).failures) }
        ensures untouched { IfErr result (λ e. e.0 ≢ StoreRefusal.Device → e.1 ≡ self.disk) }
        ensures few { length self.entries ≤ most_root_entries }
        ensures calls { AreCallsAtMost (catalogues_for (length self.entries) + 3)
            (D.facts self.disk) (D.facts (disk_after result)) }
        ensures all_calls { IfOk result (λ store. AreCallsExactly
            (catalogues_for (length self.entries) + 3)
            (D.facts self.disk) (D.facts store.disk)) }
    {
        let OldStore { disk, found, alloc } = self;
        let mut disk = disk;
        let mut found = found;
        if found.root.generation == u64::MAX {
            return Err((StoreRefusal::GenerationEnd, disk));
        }
        let libraries = found.entries.len();
        let count = catalogues_for(libraries);
        if (found.layout.free_count() as usize) < 2 * count {
            return Err((StoreRefusal::Full, disk));
        }
        let taken = take_catalogues(&mut found.layout, count);
        let root = next_root(&found.root, libraries, taken.as_slice());
        let change = Change {
            staged: Staged::Catalogues(taken),
            root,
        };
        match change.carry_out(&mut disk, &mut found.singles, &[], &found.sectors) {
            Ok(()) => {
                found.root = change.root;
                Ok(found.into_store(alloc, disk))
            }
            Err(fault) => Err((StoreRefusal::from(fault), disk)),
        }
    }
}
