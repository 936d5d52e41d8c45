// The slots for binders.
ghost use Rattle.std.specs.Prelude.{◌≡◌, ◌<◌, IfSome, None, Some};
ghost use Rattle.std.specs.Prelude.{replicate, slice_index_or, slice_set};
ghost use Rattle.binders.specs.Slotted.{lowest_free};

use registry::Binder;
use std::marker::Model;

/// 8 slots, each of which has a binder or is free. In contracts, the value is the list of the
/// slots.
#[derive(Drop)]
pub(crate) struct Slots {
    binders: [Option<Binder>; 8],
}

impl Model for Slots {
    ghost use Rattle.std.specs.Prelude.{◌≡◌, List, Option, length};
    ghost use Rattle.registry.specs.inside.Binding.{Binding};

    ghost Value = { List (Option Binding) };

    ghost view = { λ s. s.binders };

    ghost invariant = { λ s. length s.binders ≡ 8 };
}

impl Slots {
    /// Makes 8 free slots.
    pub(crate) fn new() -> Slots
        ensures { result ≡ replicate 8 None }
    {
        Slots {
            binders: [None, None, None, None, None, None, None, None],
        }
    }

    /// Returns the lowest free slot, or `None` if each slot has a binder.
    pub(crate) fn lowest_free(&self) -> Option<usize>
        ensures lowest { result ≡ lowest_free self.now }
        ensures within { IfSome result (λ slot. slot < 8) }
    {
        self.binders.iter().position(|slot| slot.is_none())
    }

    /// Puts `binder` into the slot `slot`.
    pub(crate) fn put(&mut self, slot: usize, binder: Binder)
        requires { slot < 8 }
        ensures { self.new ≡ slice_set self.old slot (Some binder) }
    {
        self.binders[slot] = Some(binder);
    }

    /// Takes the binder out of the slot `slot`, if there is one.
    pub(crate) fn take(&mut self, slot: usize) -> Option<Binder>
        ensures taken { result ≡ slice_index_or self.old slot None }
        ensures within { IfSome result (λ _. slot < 8) }
        ensures free { self.new ≡ slice_set self.old slot None }
    {
        if slot < self.binders.len() {
            self.binders[slot].take()
        } else {
            None
        }
    }
}
