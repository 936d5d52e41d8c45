// Makes the changes that allocate no memory and need no file. Each of them makes the tests of its
// command, and then calls the store.
use crate::refusal::in_words;
use crate::registry::Registry;
use crate::tests::{test_preloads, test_remove};
use requests::Refusal;
use sector_disk::Disk;

impl<D: Disk> Registry<D> {
    ghost use Rattle.std.specs.Prelude.{◌+◌, ◌-◌, length, map};
    ghost use Rattle.states.specs.Cost.{catalogues_for};
    ghost use Rattle.states.specs.State.{State};
    ghost use Rattle.store.specs.Changed.{Changed};
    ghost use Rattle.store.specs.Holds.{KeepsHeld};
    ghost use Rattle.store.specs.Opened.{IsAt};
    ghost use Rattle.requests.specs.Request.{remove, set_preloads};
    ghost use Rattle.requests.specs.Step.{answer_of};
    ghost use Rattle.registry.specs.Answered.{IsPreloadsRefusal, IsRemoveRefusal};
    ghost use Rattle.registry.specs.Untested.{AppliesUntested};

    /// Removes the library `name`. Allocates no memory.
    pub(crate) fn remove(&mut self, name: &[u8]) -> Result<(), Refusal>
        ensures applied { (s : State) → IsAt D.facts self.old s
            → AppliesUntested D.facts self.old self.new s (remove name.now) (answer_of result) }

        // The held byte strings stay unchanged.
        ensures held { KeepsHeld D.facts self.old self.new }

        ensures on_any_disk { Changed D.facts Refusal.Device Refusal.Reopen
            self.old self.new (catalogues_for (length self.old.entries - 1) + 3)
            IsRemoveRefusal result }
    {
        test_remove(&self.store, name)?;
        in_words(self.store.delete(name))
    }

    /// Sets the preloads to `names`. Allocates no memory.
    pub(crate) fn set_preloads(&mut self, names: &[&[u8]]) -> Result<(), Refusal>
        ensures applied { (s : State) → IsAt D.facts self.old s
            → AppliesUntested D.facts self.old self.new s
            (set_preloads (map (λ n. n.now) names.now)) (answer_of result) }

        // The held byte strings stay unchanged.
        ensures held { KeepsHeld D.facts self.old self.new }

        ensures on_any_disk { Changed D.facts Refusal.Device Refusal.Reopen
            self.old self.new 2 IsPreloadsRefusal result }
    {
        let positions = test_preloads(&self.store, names)?;
        in_words(self.store.set_preloads(positions.as_slice()))
    }
}
