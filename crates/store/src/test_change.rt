// The tests of a change that need no memory and no sectors.
use crate::kept::Kept;
use crate::refusal::StoreRefusal;
use roots::MOST_LIBRARIES;

impl Kept {
    ghost use Rattle.std.specs.Prelude.{◌≢◌, ◌<◌, IsFalse, IfErr, OnOk, length};
    ghost use Rattle.states.specs.Limits.{most_libraries, last_generation};
    ghost use Rattle.store.specs.inside.Prepared.{IsTestedChange, IsTestedNew};

    /// Tests that no call of the store has failed, and that there is a next generation. Refuses
    /// with S2 or S10.
    pub(crate) fn test_change(&self) -> Result<(), StoreRefusal>
        ensures usable { OnOk result (IsFalse self.now.failed) }
        ensures later { OnOk result (self.now.root.generation ≢ last_generation) }
        ensures refused { IfErr result (IsTestedChange self.now) }
    {
        if self.failed {
            return Err(StoreRefusal::Reopen);
        }
        if self.root.generation == u64::MAX {
            return Err(StoreRefusal::GenerationEnd);
        }
        Ok(())
    }

    /// Tests that no call of the store has failed, that it has fewer than 2,048 byte strings, and
    /// that there is a next generation. Refuses with S2, S9 or S10.
    pub(crate) fn test_new(&self) -> Result<(), StoreRefusal>
        ensures usable { OnOk result (IsFalse self.now.failed) }
        ensures few { OnOk result (length self.now.entries.items < most_libraries) }
        ensures later { OnOk result (self.now.root.generation ≢ last_generation) }
        ensures refused { IfErr result (IsTestedNew self.now) }
    {
        if self.failed {
            return Err(StoreRefusal::Reopen);
        }
        if self.entries.len() >= MOST_LIBRARIES {
            return Err(StoreRefusal::TooMany);
        }
        self.test_change()
    }
}
