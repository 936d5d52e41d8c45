// Opens a registry again.
use crate::admit_current::admit_current;
use crate::registry::Registry;
use sector_disk::Disk;
use std::alloc::Global;
use store::{Store, StoreRefusal};

impl<D: Disk> Registry<D> {
    ghost use Rattle.std.specs.Prelude.{◌≡◌, ◌⊎◌, IsTrue, IfOk, MatchResult};
    ghost use Rattle.sector_disk.specs.Disk.{AreCallsExactly};
    ghost use Rattle.store.specs.AnyDisk.{OpensOnAnyDisk};
    ghost use Rattle.store.specs.Opens.{Opens, OpensByEntries};
    ghost use Rattle.states.specs.State.{State};
    ghost use Rattle.registry.specs.Opened.{IsAt};
    ghost use Rattle.registry.specs.Opening.{opening_calls};
    ghost use Rattle.registry.specs.Stands.{Stands};

    /// Opens the registry on `disk`, even after a stop. Writes nothing. Syncs, and reads the two
    /// root sectors, each catalogue, one sector for each entry, and each file once. Reads all files
    /// into one buffer, and admits each file before it reads the next one. Refuses with S6
    /// (BadGeometry), S3 (NotFormatted), S12 (OldFormat), S5 (Damaged), S1 (Device) or S11
    /// (OutOfMemory), and then also returns the disk. S12 means that the disk is of version 1,
    /// which `upgrade` opens. S5 also means that a file isn't a library with its entry's name.
    pub fn open(alloc: Global, disk: D) -> Result<Registry<D>, (StoreRefusal, D)>
        // This clause is for an honest disk.
        ensures opening { Opens Stands D.facts (IsAt D.facts) disk result }
        ensures on_any_disk { OpensOnAnyDisk D.facts disk result }

        // The call makes one sync, and one read of each sector in the list above.
        ensures all_calls { IfOk result (λ registry. AreCallsExactly (opening_calls registry)
            (D.facts disk) (D.facts registry.disk)) }
    {
        let store = Store::open(alloc, disk)?;
        admit_current(alloc, store)
    }

    /// Opens a registry in the same way as `open`, but reads no file. If a library is damaged or
    /// can't be read, a bind that needs it fails, and all other calls succeed.
    pub fn open_untested(alloc: Global, disk: D) -> Result<Registry<D>, (StoreRefusal, D)>
        // The registry has named byte strings, which needn't be libraries.
        ensures opening { OpensByEntries D.facts disk result }

        // If the files are libraries, the registry is at the state that the disk holds, as after
        // `open`.
        ensures registry { IsTrue (D.facts disk).honest → (s : State) → Stands (D.facts disk).now s
            → MatchResult result (λ registry. IsAt D.facts registry s) (λ e.
            (e.0 ≡ StoreRefusal.Device) ⊎ (e.0 ≡ StoreRefusal.OutOfMemory)) }
    {
        let store = Store::open(alloc, disk)?;
        Ok(Registry { alloc, store })
    }
}
