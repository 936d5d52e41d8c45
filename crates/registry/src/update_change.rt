// Changes the draft of an update. Each change makes the tests of its command, and then calls the
// store.
use crate::refusal::in_words;
use crate::tests::{test_preloads, test_remove};
use crate::update::Update;
use requests::{Refusal, library_name};
use sector_disk::Disk;

impl<D: Disk> Update<D> {
    ghost use Rattle.std.specs.Prelude.{◌+◌, length, map};
    ghost use Rattle.std.specs.Int.{div_ceil};
    ghost use Rattle.sector_disk.specs.Disk.{sector_bytes};
    ghost use Rattle.states.specs.State.{State};
    ghost use Rattle.store.specs.Draft.{IsDraftedAt};
    ghost use Rattle.requests.specs.Request.{install, remove, replace, set_preloads};
    ghost use Rattle.requests.specs.Step.{answer_of};
    ghost use Rattle.registry.specs.Answered.{IsInstallRefusal, IsPreloadsRefusal};
    ghost use Rattle.registry.specs.Answered.{IsRemoveRefusal, IsReplaceRefusal};
    ghost use Rattle.registry.specs.Drafting.{AppliesDraft};
    ghost use Rattle.registry.specs.inside.Drafting.{IsPlanned};

    /// Installs the library `bytes` in the draft, after the draft's other libraries. Writes its
    /// file to unused sectors.
    pub(crate) fn install(&mut self, bytes: &[u8]) -> Result<(), Refusal>
        ensures applied { (s d : State) → IsDraftedAt D.facts self.old s d → AppliesDraft D.facts
            self.old self.new s d (install bytes.now) (answer_of result) }
        ensures on_any_disk { IsPlanned D.facts self.old self.new
            (div_ceil (length bytes.now) sector_bytes + 1) IsInstallRefusal result }
    {
        if self.draft.has_failed() {
            return Err(Refusal::Reopen);
        }
        let name = library_name(self.alloc, bytes)?;
        if self.draft.position(name).is_some() {
            return Err(Refusal::AlreadyInstalled);
        }
        in_words(self.draft.put_new(name, bytes))
    }

    /// Replaces the file of a library in the draft. The library keeps its position.
    pub(crate) fn replace(&mut self, bytes: &[u8]) -> Result<(), Refusal>
        ensures applied { (s d : State) → IsDraftedAt D.facts self.old s d → AppliesDraft D.facts
            self.old self.new s d (replace bytes.now) (answer_of result) }
        ensures on_any_disk { IsPlanned D.facts self.old self.new
            (div_ceil (length bytes.now) sector_bytes + 1) IsReplaceRefusal result }
    {
        if self.draft.has_failed() {
            return Err(Refusal::Reopen);
        }
        let name = library_name(self.alloc, bytes)?;
        if self.draft.position(name).is_none() {
            return Err(Refusal::NotInstalled);
        }
        in_words(self.draft.put_over(name, bytes))
    }

    /// Removes the library `name` from the draft. Allocates no memory, and makes no call of the
    /// disk.
    pub(crate) fn remove(&mut self, name: &[u8]) -> Result<(), Refusal>
        ensures applied { (s d : State) → IsDraftedAt D.facts self.old s d → AppliesDraft D.facts
            self.old self.new s d (remove name.now) (answer_of result) }
        ensures on_any_disk { IsPlanned D.facts self.old self.new 0 IsRemoveRefusal result }
    {
        test_remove(&self.draft, name)?;
        in_words(self.draft.delete(name))
    }

    /// Sets the draft's preloads to `names`. Allocates no memory, and makes no call of the disk.
    pub(crate) fn set_preloads(&mut self, names: &[&[u8]]) -> Result<(), Refusal>
        ensures applied { (s d : State) → IsDraftedAt D.facts self.old s d → AppliesDraft D.facts
            self.old self.new s d (set_preloads (map (λ n. n.now) names.now)) (answer_of result) }
        ensures on_any_disk { IsPlanned D.facts self.old self.new 0 IsPreloadsRefusal result }
    {
        let positions = test_preloads(&self.draft, names)?;
        in_words(self.draft.set_preloads(positions.as_slice()))
    }
}
