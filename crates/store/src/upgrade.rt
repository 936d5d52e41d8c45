// Opens a disk of version 1 or 2 as a disk of version 2.
use crate::look::Look;
use crate::refusal::StoreRefusal;
use crate::store::Store;
use sector_disk::Disk;
use std::alloc::Global;

impl<D: Disk> Store<D> {
    ghost use Rattle.std.specs.Prelude.{◌≡◌, ◌≢◌, ◌+◌, ◌<◌, ◌⊎◌, [], IsTrue, IsFalse, IfOk};
    ghost use Rattle.std.specs.Prelude.{IfErr, MatchResult, length};
    ghost use Rattle.sector_disk.specs.Disk.{Mixture, LeavesOnly, AreCallsExactly, AreCallsAtMost};
    ghost use Rattle.roots.specs.Limits.{most_catalogues, most_root_entries};
    ghost use Rattle.states.specs.Limits.{most_libraries};
    ghost use Rattle.states.specs.Cost.{catalogues_for};
    ghost use Rattle.store.specs.Opened.{IsAt, disk_after, calls_to_open};
    ghost use Rattle.store.specs.Opening.{RefusesLook, IsRefusalOfUpgrade};
    ghost use Rattle.states.specs.Geometry.{IsGeometry};
    ghost use Rattle.store.specs.Stands.{Stands, StandsOld, StandsEither};
    ghost use Rattle.store.specs.Step.{refusal_of_upgrade, answer_of, IsUpgradeAnswer};
    ghost use Rattle.store.specs.Upgraded.{upgraded, IsNotOld, IsUpgradeOf, IsRelistedFrom};
    ghost use Rattle.states.specs.State.{State};

    /// Opens the store that a disk of version 1 or 2 holds, also after a stop, as a store of
    /// version 2. Writes nothing to a disk of version 2. Writes the catalogues of the same byte
    /// strings and the next root to a disk of version 1. A stop at any moment leaves the whole old
    /// store or the whole new one. Refuses with S6, S3, S5, S10, S7, S11 or S1, and then also
    /// returns the disk; only S1 may come after the first write.
    pub fn upgrade(alloc: Global, disk: D) -> Result<Store<D>, (StoreRefusal, D)>
        // A stop at any moment leaves only contents that a stop could leave before the call. On a
        // disk of version 1, it may also leave the state after the upgrade.
        ensures any_moment { IsTrue (D.facts disk).honest → (s : State)
            → StandsOld (D.facts disk).now s
            → LeavesOnly (D.facts disk) (D.facts (disk_after result))
            (λ m. Mixture (D.facts disk) m ⊎ StandsOld m s ⊎ Stands m (upgraded s)) }
        ensures left_alone { IsTrue (D.facts disk).honest → IsNotOld (D.facts disk).now
            → LeavesOnly (D.facts disk) (D.facts (disk_after result)) (Mixture (D.facts disk)) }
        ensures unwritten { IsTrue (D.facts disk).honest
            → IfErr result (λ e. e.0 ≢ StoreRefusal.Device
            → LeavesOnly (D.facts disk) (D.facts e.1) (Mixture (D.facts disk))) }

        // If nothing is written, reads return the same contents as before.
        ensures now { IsTrue (D.facts disk).honest → IsNotOld (D.facts disk).now
            → (D.facts (disk_after result)).now ≡ (D.facts disk).now }
        ensures now_refused { IsTrue (D.facts disk).honest
            → IfErr result (λ e. e.0 ≢ StoreRefusal.Device
            → (D.facts e.1).now ≡ (D.facts disk).now) }

        // The store is at the state that the disk's sectors held before or, if the disk was of
        // version 1, at the upgraded state. Every mixture holds the store's state.
        ensures ok { IsTrue (D.facts disk).honest → IfOk result (λ store.
            (s : State) × IsUpgradeOf D.facts store (D.facts disk).now s) }
        ensures stands { IsTrue (D.facts disk).honest → (s : State) → Stands (D.facts disk).now s
            → MatchResult result (λ store. IsAt D.facts store s) (λ e.
            (e.0 ≡ StoreRefusal.Device) ⊎ (e.0 ≡ StoreRefusal.OutOfMemory)) }
        ensures stands_old { IsTrue (D.facts disk).honest → (s : State)
            → StandsOld (D.facts disk).now s
            → IfOk result (λ store. IsAt D.facts store (upgraded s)) }
        ensures placed_old { IsTrue (D.facts disk).honest → (s : State)
            → StandsOld (D.facts disk).now s
            → IfOk result (IsRelistedFrom (D.facts disk).now s) }
        ensures answer { IsTrue (D.facts disk).honest → (s : State)
            → StandsOld (D.facts disk).now s
            → IsUpgradeAnswer (refusal_of_upgrade (D.facts disk).sectors s) (answer_of result) }
        ensures refused { IsTrue (D.facts disk).honest → IsNotOld (D.facts disk).now
            → IfErr result (λ e. RefusesLook StandsEither (D.facts disk).now e.0) }

        // The call makes the same sync and the same reads as `open`. On a disk of version 1 it then
        // writes the catalogues and the root, and syncs twice.
        ensures calls_current { IsTrue (D.facts disk).honest → (s : State)
            → Stands (D.facts disk).now s → IfOk result (λ store. AreCallsExactly
            (calls_to_open store) (D.facts disk) (D.facts store.disk)) }
        ensures calls_old { IsTrue (D.facts disk).honest → (s : State)
            → StandsOld (D.facts disk).now s → IfOk result (λ store. AreCallsExactly
            (3 + length store.entries + (catalogues_for (length store.entries) + 3))
            (D.facts disk) (D.facts store.disk)) }

        // The clauses from here on hold on any disk, honest or not.
        ensures unheld { IfOk result (λ store. store.held ≡ []) }
        ensures usable { IfOk result (λ store. IsFalse store.failed) }
        ensures geometry { IfOk result (λ _. IsGeometry (D.facts disk).sectors) }
        ensures refusals { IfErr result (λ e. IsRefusalOfUpgrade (D.facts disk).sectors e.0) }
        ensures device { IfErr result (λ e. e.0 ≡ StoreRefusal.Device
            → (D.facts disk).failures < (D.facts e.1).failures) }
        ensures untouched { IfErr result (λ e. e.0 ≡ StoreRefusal.BadGeometry → e.1 ≡ disk) }
        ensures calls { AreCallsAtMost (3 + most_catalogues + most_libraries
            + (catalogues_for most_root_entries + 3))
            (D.facts disk) (D.facts (disk_after result)) }
    {
        match Store::look(alloc, disk)? {
            Look::Current(store) => Ok(store),
            Look::Old(store) => store.commit(),
        }
    }
}
