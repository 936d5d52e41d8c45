// The writes of a change: first the staged sectors, which were unused before, and then the root.
ghost use Rattle.std.specs.Prelude.{◌+◌, ◌<◌, ◌≤◌, ◌^◌, List, Contains, IsTrue, OnOk};
ghost use Rattle.extents.specs.Limits.{root_sectors};
ghost use Rattle.sector_disk.specs.Disk.{Sector, Mixture, IsMixtureBut, LeavesOnly};
ghost use Rattle.passes.specs.Calls.{AreCallsInRow};
ghost use Rattle.roots.specs.Root.{RootHasSpelling};
ghost use Rattle.store.specs.declared.placed_entry.PlacedEntry.{PlacedEntry};
ghost use Rattle.store.specs.inside.Change.{CanBeStaged, HasBytes, HasSpelling, IsCarriedOut};
ghost use Rattle.store.specs.inside.Change.{AreWritten, HasSync, IsApartFrom};
ghost use Rattle.store.specs.inside.Change.{IsStaged, staged_calls, staged_sectors};
ghost use Rattle.store.specs.inside.Room.{AreClaimedOnce, IsReleased, IsRootOr};

use crate::catalogues::Singles;
use crate::placed_entry::PlacedEntry;
use crate::room::{CatalogueSectors, give_back_room, release_sectors};
use extents::Layout;
use passes::{stage, switch_root};
use roots::{Root, encode_root, slot_of};
use sector_disk::{Disk, DiskFault};

/// The part of a change that is written to unused sectors before the root is written.
#[derive(Drop)]
pub(crate) enum Staged {
    /// Nothing: everything that the change's root lists is already on the disk.
    Nothing,
    /// The catalogues of the change's list.
    Catalogues(CatalogueSectors),
    /// A byte string with its entry, and the catalogues of the list that has this entry.
    Put(PlacedEntry, CatalogueSectors),
}

/// A planned change: its staged part, and the root that is written after this part.
#[derive(Drop)]
pub(crate) struct Change {
    pub staged: Staged,
    pub root: Root,
}

/// Writes the staged sectors of a change, and syncs. If nothing is staged, does nothing.
fn write_staged<D: Disk>(
    disk: &mut D,
    singles: &mut Singles,
    staged: &Staged,
    bytes: &[u8],
    listed: &[u32],
) -> Result<(), DiskFault>
    requires fits { (D.facts disk.old).sectors < 2 ^ 32 }
    requires room { CanBeStaged (D.facts disk.old).sectors staged.now listed.now }
    ensures calls { AreCallsInRow (staged_calls staged.now)
        (D.facts disk.old) (D.facts disk.new) result }

    // A stop at any moment changes no sectors except the staged ones.
    ensures any_moment { IsTrue (D.facts disk.old).honest
        → LeavesOnly (D.facts disk.old) (D.facts disk.new)
        (IsMixtureBut (Contains (staged_sectors staged.now)) (D.facts disk.old)) }
    ensures staged { IsTrue (D.facts disk.old).honest
        → OnOk result ((m : List Sector) → Mixture (D.facts disk.new) m
        → IsStaged m staged.now bytes.now listed.now) }

    // If anything is staged, the sync also puts earlier writes of other sectors on the medium.
    ensures written { IsTrue (D.facts disk.old).honest
        → OnOk result ((written : List PlacedEntry) → IsApartFrom staged.now written
        → HasSync staged.now written → (m : List Sector) → Mixture (D.facts disk.new) m
        → AreWritten (D.facts disk.old).now written m) }
{
    match staged {
        Staged::Nothing => Ok(()),
        Staged::Catalogues(catalogues) => {
            singles.set_catalogues(catalogues.as_slice(), listed);
            stage(disk, &[], &[], singles.as_slice())
        }
        Staged::Put(put, catalogues) => {
            singles.set_put(put, catalogues.as_slice(), listed);
            stage(disk, put.entry.file_extents(), bytes, singles.as_slice())
        }
    }
}

impl Change {
    /// Writes the staged sectors, with the bytes `bytes` and with catalogues that list the entry
    /// sectors `listed`. Then writes the change's root, and syncs. The current root may be of
    /// version 1 or 2.
    pub(crate) fn carry_out<D: Disk>(
        &self,
        disk: &mut D,
        singles: &mut Singles,
        bytes: &[u8],
        listed: &[u32],
    ) -> Result<(), DiskFault>
        requires root { RootHasSpelling self.now.root }
        requires fits { (D.facts disk.old).sectors < 2 ^ 32 }
        requires roots { root_sectors ≤ (D.facts disk.old).sectors }
        requires room { CanBeStaged (D.facts disk.old).sectors self.now.staged listed.now }
        ensures calls { AreCallsInRow (staged_calls self.now.staged + 2)
            (D.facts disk.old) (D.facts disk.new) result }
        ensures carried_out { IsTrue (D.facts disk.old).honest
            → IsCarriedOut (D.facts disk.old) (D.facts disk.new) self.now
            bytes.now listed.now result }
        ensures written { IsTrue (D.facts disk.old).honest
            → OnOk result ((m : List Sector) → Mixture (D.facts disk.new) m
            → HasBytes m self.now.staged bytes.now) }

        // In all sectors except the root sectors and the staged sectors, a stop leaves only
        // contents that a stop before the call could leave.
        ensures others { IsTrue (D.facts disk.old).honest
            → (m : List Sector) → Mixture (D.facts disk.new) m
            → IsMixtureBut (IsRootOr (staged_sectors self.now.staged)) (D.facts disk.old) m }
    {
        write_staged(disk, singles, &self.staged, bytes, listed)?;
        switch_root(
            disk,
            slot_of(self.root.generation),
            &encode_root(&self.root),
        )
    }

    /// Frees the sectors that the change took.
    pub(crate) fn give_back(&self, layout: &mut Layout)
        requires fits { HasSpelling self.now.staged }
        requires held { AreClaimedOnce layout.old (staged_sectors self.now.staged) }
        ensures { IsReleased layout.old layout.new (staged_sectors self.now.staged) }
    {
        match &self.staged {
            Staged::Nothing => {}
            Staged::Catalogues(catalogues) => release_sectors(layout, catalogues.as_slice()),
            Staged::Put(put, catalogues) => give_back_room(layout, put, catalogues.as_slice()),
        }
    }
}
