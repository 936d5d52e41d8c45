//! The choice of the current root.

ghost use Rattle.std.specs.Prelude.{◌≡◌, ◌<◌, ◌↔◌, ℕ, List, Ok, Err, if◌then◌else◌};
ghost use Rattle.roots.specs.declared.root.Root.{Root};
ghost use Rattle.roots.specs.Root.{LacksMagic, version_of};
ghost use Rattle.roots.specs.Slot.{IsSlotOf};
ghost use Rattle.extents.specs.Limits.{root_sectors};
ghost use Rattle.roots.specs.Choice.{slot_of, keeps_version, chosen, IsCurrent};

use crate::root::Root;
use crate::slot::Slot;
use crate::version::Version;
use extents::ROOT_SECTORS;

/// The reason why no root is current.
#[derive(Clone, Copy, Debug, PartialEq, Eq)]
pub enum ChooseRefusal {
    /// Both slots are empty.
    NotFormatted,
    /// A stop of a registry never leaves these slots.
    Damaged,
}

/// Returns the root sector for a generation: 0 for even generations, 1 for odd ones.
pub fn slot_of(generation: u64) -> u32
    ensures value { result ≡ slot_of generation }
    ensures low { result < root_sectors }
{
    (generation % u64::from(ROOT_SECTORS)) as u32
}

/// Returns the current root. Slot 0 is for even generations, and slot 1 is for odd generations.
pub fn choose(slot0: Slot, slot1: Slot) -> Result<Root, ChooseRefusal>
    ensures table { result ≡ chosen slot0 slot1 }

    // If the slots were read from two sectors, the returned root is the current root of these
    // sectors.
    ensures ok { (sector0 sector1 : List ℕ) → IsSlotOf sector0 slot0 → IsSlotOf sector1 slot1
        → (root : Root) → (result ≡ Ok root) ↔ IsCurrent sector0 sector1 root }

    // The call refuses with NotFormatted if neither sector has a magic.
    ensures refused { (sector0 sector1 : List ℕ) → IsSlotOf sector0 slot0 → IsSlotOf sector1 slot1
        → (result ≡ Err ChooseRefusal.NotFormatted) ↔ (LacksMagic sector0 × LacksMagic sector1) }
{
    by_table(slot0, slot1)
}

// Returns the result that the table `chosen` has. The clauses about the sectors follow from this
// table.
fn by_table(slot0: Slot, slot1: Slot) -> Result<Root, ChooseRefusal>
    ensures { result ≡ chosen slot0 slot1 }
{
    match (slot0, slot1) {
        (Slot::Good(even), Slot::Good(odd)) => later(even, odd),
        (Slot::Good(root), Slot::Empty) if root.generation == 0 => Ok(root),
        (Slot::Empty, Slot::Empty) => Err(ChooseRefusal::NotFormatted),
        _ => Err(ChooseRefusal::Damaged),
    }
}

// Returns the later of two roots. Refuses with Damaged unless each root is in its slot, the two are
// one commit apart, and the later root's version may follow the earlier root's.
fn later(even: Root, odd: Root) -> Result<Root, ChooseRefusal>
    ensures { result ≡ chosen (Slot.Good even) (Slot.Good odd) }
{
    if slot_of(even.generation) != 0
        || slot_of(odd.generation) != 1
        || even.generation.abs_diff(odd.generation) != 1
    {
        return Err(ChooseRefusal::Damaged);
    }
    if even.generation < odd.generation {
        after(even, odd)
    } else {
        after(odd, even)
    }
}

// Returns the newer of two roots, which are one commit apart. Refuses with Damaged if a root of
// version 1 follows one of version 2.
fn after(older: Root, newer: Root) -> Result<Root, ChooseRefusal>
    ensures { result ≡ (if keeps_version (version_of older) (version_of newer)
        then Ok newer else Err ChooseRefusal.Damaged) }
{
    match (older.version(), newer.version()) {
        (Version::Two, Version::One) => Err(ChooseRefusal::Damaged),
        _ => Ok(newer),
    }
}
