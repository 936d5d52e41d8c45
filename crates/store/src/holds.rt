// The table of the held byte strings.
ghost use Rattle.std.specs.Prelude.{◌≡◌, ◌⊎◌, [], IsTrue, IsFalse, IsNone};
ghost use Rattle.std.specs.Prelude.{IfSome, IfErr, OnOk, OnErr};
ghost use Rattle.store.specs.declared.holds.HeldRow.{HeldRow};
ghost use Rattle.store.specs.Holds.{IsHeldBy};
ghost use Rattle.store.specs.inside.HeldRows.{IsUnheld, IsHeldOnce, IsHeldMore};
ghost use Rattle.store.specs.inside.HeldRows.{IsLeft, IsHeldLess, IsLetGo};

use crate::placed_entry::PlacedEntry;
use crate::refusal::StoreRefusal;
use std::alloc::Global;
use std::collections::BTreeMap;
use std::marker::Model;

/// A held byte string: its entry, the number of its holders, and whether the state lists it.
#[derive(Clone, Copy)]
pub struct HeldRow {
    pub placed: PlacedEntry,
    pub holders: u64,
    pub listed: bool,
}

/// The held byte strings, one row for each, in the order of the sectors of their entries. These
/// sectors identify the rows.
#[derive(Drop)]
pub(crate) struct Holds {
    rows: BTreeMap<u32, HeldRow>,
}

impl Model for Holds {
    ghost use Rattle.std.specs.Prelude.{◌≡◌, List, map};
    ghost use Rattle.std.specs.BTreeMap.{keys, values};
    ghost use Rattle.store.specs.declared.holds.HeldRow.{HeldRow};

    ghost Value = { List HeldRow };

    ghost view = { λ held. values held.rows };

    ghost invariant = { λ held. keys held.rows ≡ map (λ h. h.placed.at) (values held.rows) };
}

impl Holds {
    /// Makes an empty table. Allocates nothing.
    pub(crate) fn new(alloc: Global) -> Holds
        ensures { result ≡ [] }
    {
        Holds {
            rows: BTreeMap::new(alloc),
        }
    }

    /// Returns the entry of the held byte string whose entry is in `sector`, if there is one.
    pub(crate) fn placed(&self, sector: u32) -> Option<&PlacedEntry>
        ensures none { IsNone result → IsUnheld self.now sector }
        ensures some { IfSome result (λ placed. IsHeldBy self.now sector placed.now) }
    {
        let hold = self.rows.get(&sector)?;
        Some(&hold.placed)
    }

    /// Adds a row with one holder, for a byte string that nobody held.
    fn add(&mut self, placed: &PlacedEntry) -> Result<(), StoreRefusal>
        requires { IsUnheld self.old placed.now.at }
        ensures ok { OnOk result (IsHeldOnce self.old self.new placed.now) }
        ensures err { OnErr result (self.new ≡ self.old) }
        ensures refusals { IfErr result (λ e. e ≡ StoreRefusal.OutOfMemory) }
    {
        let first = HeldRow {
            placed: *placed,
            holders: 1,
            listed: true,
        };
        let Ok(_) = self.rows.insert(placed.at, first) else {
            return Err(StoreRefusal::OutOfMemory);
        };
        Ok(())
    }

    /// Adds a holder to the byte string of the entry `placed`. Only the first holder allocates.
    pub(crate) fn hold(&mut self, placed: &PlacedEntry) -> Result<(), StoreRefusal>
        ensures ok { OnOk result (IsHeldOnce self.old self.new placed.now
            ⊎ IsHeldMore self.old self.new placed.now.at) }
        ensures err { OnErr result (self.new ≡ self.old) }
        ensures refusals { IfErr result (λ e. e ≡ StoreRefusal.OutOfMemory) }
    {
        let Some(hold) = self.rows.get_mut(&placed.at) else {
            return self.add(placed);
        };
        let Some(holders) = hold.holders.checked_add(1) else {
            return Err(StoreRefusal::OutOfMemory);
        };
        hold.holders = holders;
        Ok(())
    }

    /// Marks the byte string whose entry is in `sector` as no longer listed by the state, if it is
    /// held. Returns whether it is held.
    pub(crate) fn leave(&mut self, sector: u32) -> bool
        ensures no { IsFalse result → (IsUnheld self.old sector) × (self.new ≡ self.old) }
        ensures yes { IsTrue result → IsLeft self.old self.new sector }
    {
        let Some(hold) = self.rows.get_mut(&sector) else {
            return false;
        };
        hold.listed = false;
        true
    }

    /// Removes one holder from the byte string whose entry is in `sector`. If this was the last
    /// holder, removes the byte string's row and returns the row. Allocates nothing.
    pub(crate) fn let_go(&mut self, sector: u32) -> Option<HeldRow>
        ensures none { IsNone result → (IsHeldLess self.old self.new sector)
            ⊎ ((IsUnheld self.old sector) × (self.new ≡ self.old)) }
        ensures some { IfSome result (IsLetGo self.old self.new sector) }
    {
        let hold = self.rows.get_mut(&sector)?;
        if hold.holders > 1 {
            hold.holders -= 1;
            return None;
        }
        self.rows.remove(&sector)
    }
}
