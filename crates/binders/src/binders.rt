// A registry with binders.
use crate::slots::Slots;
use registry::{Registry, Step};
use requests::{Command, Refusal, Reply};
use sector_disk::Disk;
use std::alloc::Global;
use std::marker::Model;

/// A registry with up to 8 binders. Each binder binds a program, step by step, with the registry as
/// it was when the binder began. Opening the disk again ends all binders.
pub struct Binders<D: Disk> {
    pub(crate) alloc: Global,
    registry: Registry<D>,
    slots: Slots,
}

impl<D: Disk> Model for Binders<D> {
    ghost use Rattle.binders.specs.Slotted.{IsHeld, Slotted};

    ghost Value = { Slotted D };

    ghost view = { λ b. record { registry = b.registry; slots = b.slots } };

    ghost invariant = { λ b. IsHeld b.registry b.slots };
}

impl<D: Disk> Binders<D> {
    ghost use Rattle.std.specs.Prelude.{◌≡◌, [], All, None, replicate};
    ghost use Rattle.sector_disk.specs.Disk.{AreCallsExactly};
    ghost use Rattle.requests.specs.Request.{request_of};
    ghost use Rattle.states.specs.State.{State};
    ghost use Rattle.registry.specs.Answered.{Answered};
    ghost use Rattle.registry.specs.Applied.{Applies};
    ghost use Rattle.registry.specs.Calls.{IfAccepted, calls_of};
    ghost use Rattle.registry.specs.Opened.{IsAt};
    ghost use Rattle.store.specs.Holds.{AreHolds};
    ghost use Rattle.binders.specs.Counted.{CountsOnce};
    ghost use Rattle.binders.specs.Slotted.{AreOn, HoldAlone};
    ghost use Rattle.binders.specs.Stepped.{AdvancesIn, BeginsIn, CancelsIn, FlyOn};

    /// Makes a registry without binders. `alloc` allocates the replies to events.
    pub fn new(alloc: Global, registry: Registry<D>) -> Binders<D>
        ensures none { result ≡ record { registry = registry; slots = replicate 8 None } }
        ensures alone { registry.held ≡ [] → HoldAlone result }
        ensures on { AreOn D.facts result (replicate 8 None) }
    {
        Binders {
            alloc,
            registry,
            slots: Slots::new(),
        }
    }

    /// Returns whether a write or a sync has failed. If so, commands, `begin` and the steps of
    /// binders are refused with S2 until the disk is opened again.
    pub fn has_failed(&self) -> bool
        ensures value { result ≡ self.now.registry.failed }
    {
        self.registry.has_failed()
    }

    /// Does nothing. The first clause states that, on any disk and after any event, each held byte
    /// string has one row. The second states that no byte string is held if there is no binder and
    /// nobody else holds a byte string.
    pub fn holds_are_sound(&self)
        ensures holds { AreHolds self.now.registry }
        ensures empty { HoldAlone self.now → All (λ slot. slot ≡ None) self.now.slots
            → self.now.registry.held ≡ [] }
    {
        self.registry.holds_are_sound();
    }

    /// Returns the registry and drops its binders. The byte strings that they hold stay held until
    /// the disk is opened again.
    pub fn into_registry(self) -> Registry<D>
        ensures { result ≡ self.registry }
    {
        let Binders {
            alloc: _,
            registry,
            slots: _,
        } = self;
        registry
    }

    /// Applies a command in the same way as `Registry::apply`. The binders stay on their flights.
    pub fn apply(&mut self, command: &Command<'_>) -> Reply
        ensures applied { (s : State) → IsAt D.facts self.old.registry s
            → Applies D.facts self.old.registry self.new.registry s (request_of command.now)
            result }
        ensures all_calls { (s : State) → IsAt D.facts self.old.registry s → IfAccepted result
            (AreCallsExactly (calls_of s (request_of command.now))
            (D.facts self.old.registry.disk) (D.facts self.new.registry.disk)) }
        ensures on_any_disk { Answered D.facts self.old.registry self.new.registry
            (request_of command.now) result }
        ensures fly_on { FlyOn D.facts self.old self.new }
        ensures slots { self.new.slots ≡ self.old.slots }
        ensures alone { HoldAlone self.old → HoldAlone self.new }

        // The test for S7 counts the sectors of the state, and those of each byte string that only
        // binders hold. It counts such a byte string once, even if several binders hold it.
        ensures counted { HoldAlone self.old → CountsOnce self.old }
    {
        self.registry.holds_are_sound();
        self.registry.apply(command)
    }

    /// Begins to bind `program` at `base`, puts the binder into the lowest free slot, and returns
    /// this slot. Refuses with S2, C7 or S11, in this order. Copies the program, and makes no call
    /// of the disk.
    pub fn begin(&mut self, program: &[u8], base: u64) -> Result<usize, Refusal>
        ensures { BeginsIn D.facts self.old self.new program.now base result }
    {
        if self.registry.has_failed() {
            return Err(Refusal::Reopen);
        }
        let Some(slot) = self.slots.lowest_free() else {
            return Err(Refusal::NoSlot);
        };
        let binder = self.registry.begin(program, base)?;
        self.slots.put(slot, binder);
        Ok(slot)
    }

    /// Makes the next step of the binder in `slot`. Tests for C8 and then for S2. The first step
    /// tests the program without its libraries, each later step reads and admits one library, and
    /// the last step binds the program. After the last step, the slot is free. After S1, S2 and
    /// S11, the binder is unchanged.
    pub fn advance(&mut self, slot: usize) -> Result<Step, Refusal>
        ensures { AdvancesIn D.facts self.old self.new slot result }
    {
        let Some(taken) = self.slots.take(slot) else {
            return Err(Refusal::NoSuchBinder);
        };
        let mut binder = taken;
        match self.registry.advance(&mut binder) {
            Ok(Step::Final(answer)) => {
                self.registry.end(binder);
                Ok(Step::Final(answer))
            }
            Ok(Step::Going) => {
                self.slots.put(slot, binder);
                Ok(Step::Going)
            }
            Err(refusal) => {
                self.slots.put(slot, binder);
                Err(refusal)
            }
        }
    }

    /// Ends the binder in `slot`, and frees the slot. Returns Done, even if an earlier write or
    /// sync failed, or C8 if the slot has no binder. Allocates nothing, and makes no call of the
    /// disk.
    pub fn cancel(&mut self, slot: usize) -> Reply
        ensures { CancelsIn D.facts self.old self.new slot result }
    {
        match self.slots.take(slot) {
            Some(binder) => {
                self.registry.end(binder);
                Reply::Done
            }
            None => Reply::Refused(Refusal::NoSuchBinder),
        }
    }
}
