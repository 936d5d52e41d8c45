// Installs a library after the other libraries, or replaces the library with the same name.
use crate::refusal::in_words;
use crate::registry::Registry;
use requests::{Refusal, library_name};
use sector_disk::Disk;

impl<D: Disk> Registry<D> {
    ghost use Rattle.std.specs.Prelude.{◌+◌, length};
    ghost use Rattle.std.specs.Int.{div_ceil};
    ghost use Rattle.sector_disk.specs.Disk.{sector_bytes};
    ghost use Rattle.states.specs.Cost.{catalogues_for};
    ghost use Rattle.store.specs.Changed.{Changed};
    ghost use Rattle.store.specs.Holds.{KeepsHeld};
    ghost use Rattle.store.specs.Opened.{IsAt};
    ghost use Rattle.requests.specs.Request.{install, replace};
    ghost use Rattle.states.specs.State.{State};
    ghost use Rattle.requests.specs.Step.{answer_of};
    ghost use Rattle.registry.specs.Answered.{IsInstallRefusal, IsReplaceRefusal};
    ghost use Rattle.registry.specs.Untested.{AppliesUntested};

    /// Installs the library `bytes` after the other libraries. Writes its file to unused sectors.
    /// Makes two syncs, and a write for each sector of the file, for the entry, for each catalogue
    /// of the new list, and for the root.
    pub(crate) fn install(&mut self, bytes: &[u8]) -> Result<(), Refusal>
        ensures applied { (s : State) → IsAt D.facts self.old s
            → AppliesUntested D.facts self.old self.new s (install bytes.now) (answer_of result) }

        // The held byte strings stay unchanged.
        ensures held { KeepsHeld D.facts self.old self.new }

        ensures on_any_disk { Changed D.facts Refusal.Device Refusal.Reopen
            self.old self.new (div_ceil (length bytes.now) sector_bytes
            + catalogues_for (length self.old.entries + 1) + 4) IsInstallRefusal result }
    {
        if self.store.has_failed() {
            return Err(Refusal::Reopen);
        }
        let name = library_name(self.alloc, bytes)?;
        if self.store.position(name).is_some() {
            return Err(Refusal::AlreadyInstalled);
        }
        in_words(self.store.put_new(name, bytes))
    }

    /// Replaces the file of a library by `bytes`. The library keeps its position. The sectors of
    /// the old file don't become unused until the change is done. Makes the same calls of the disk
    /// as `install`, with catalogues for the same number of libraries as before.
    pub(crate) fn replace(&mut self, bytes: &[u8]) -> Result<(), Refusal>
        ensures applied { (s : State) → IsAt D.facts self.old s
            → AppliesUntested D.facts self.old self.new s (replace bytes.now) (answer_of result) }

        // The held byte strings stay unchanged.
        ensures held { KeepsHeld D.facts self.old self.new }

        ensures on_any_disk { Changed D.facts Refusal.Device Refusal.Reopen
            self.old self.new (div_ceil (length bytes.now) sector_bytes
            + catalogues_for (length self.old.entries) + 4) IsReplaceRefusal result }
    {
        if self.store.has_failed() {
            return Err(Refusal::Reopen);
        }
        let name = library_name(self.alloc, bytes)?;
        if self.store.position(name).is_none() {
            return Err(Refusal::NotInstalled);
        }
        in_words(self.store.put_over(name, bytes))
    }
}
