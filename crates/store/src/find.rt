// Reads the current root of a disk, and the entries that this root lists.
ghost use Rattle.std.specs.Prelude.{◌≡◌, ◌+◌, ◌<◌, ◌⊎◌, IsTrue, IfOk, IfErr, OnOk, List};
ghost use Rattle.std.specs.Prelude.{length};
ghost use Rattle.sector_disk.specs.Disk.{sector, IsSynced};
ghost use Rattle.sector_disk.specs.Disk.{AreCallsExactly, AreCallsAtMost};
ghost use Rattle.passes.specs.Calls.{AreReads};
ghost use Rattle.roots.specs.declared.version.Version.TheVariants.{Two};
ghost use Rattle.roots.specs.Limits.{most_catalogues};
ghost use Rattle.states.specs.Limits.{most_libraries};
ghost use Rattle.roots.specs.Root.{RootHasSpelling, version_of};
ghost use Rattle.roots.specs.Choice.{IsCurrent};
ghost use Rattle.store.specs.Opening.{RefusesLook, RefusesOpen};
ghost use Rattle.states.specs.Geometry.{IsGeometry};
ghost use Rattle.store.specs.declared.placed_entry.PlacedEntry.{PlacedEntry};
ghost use Rattle.store.specs.Stands.{IsIntact, IsListed, Stands, StandsEither, catalogues_of};
ghost use Rattle.store.specs.inside.FoundState.{Finds, IsFoundAfter};
ghost use Rattle.store.specs.inside.Kept.{HaveSpellings};
ghost use Rattle.store.specs.inside.Reading.{AreReadsBehindSync, IsRefusalOfList};
ghost use Rattle.store.specs.inside.Reading.{RefusesEntries, RefusesRoot};

use crate::entries::read_entries;
use crate::found_state::FoundState;
use crate::listed::read_listed;
use crate::placed_entry::PlacedEntry;
use crate::refusal::StoreRefusal;
use crate::slots::read_slots;
use roots::{Root, Version, choose};
use sector_disk::Disk;
use std::alloc::Global;

/// Syncs a disk, which a stop may have left, and returns the disk's current root, which may be of
/// version 1 or 2.
fn read_root<D: Disk>(disk: &mut D) -> Result<Root, StoreRefusal>
    requires { IsGeometry (D.facts disk.old).sectors }
    ensures calls { AreCallsAtMost 3 (D.facts disk.old) (D.facts disk.new) }
    ensures all_calls { OnOk result (AreCallsExactly 3 (D.facts disk.old) (D.facts disk.new)) }
    ensures reads { IsTrue (D.facts disk.old).honest
        → AreReadsBehindSync (D.facts disk.old) (D.facts disk.new) }
    ensures synced { IsTrue (D.facts disk.old).honest → OnOk result (IsSynced (D.facts disk.new)) }
    ensures root { IfOk result RootHasSpelling }
    ensures current { IsTrue (D.facts disk.old).honest → IfOk result
        (IsCurrent (sector (D.facts disk.old).now 0) (sector (D.facts disk.old).now 1)) }
    ensures refused { IsTrue (D.facts disk.old).honest
        → IfErr result (RefusesRoot (D.facts disk.old).now) }
    ensures device { IfErr result (λ e. e ≡ StoreRefusal.Device
        → (D.facts disk.old).failures < (D.facts disk.new).failures) }
    ensures refusals { IfErr result (λ e. (e ≡ StoreRefusal.Device)
        ⊎ (e ≡ StoreRefusal.NotFormatted) ⊎ (e ≡ StoreRefusal.Damaged)) }
{
    let (zero, one) = read_slots(disk)?;
    let root = choose(zero, one)?;
    Ok(root)
}

/// Returns the entries that a root lists. Reads each catalogue and each entry once.
fn read_listed_entries<D: Disk>(
    alloc: Global,
    disk: &mut D,
    root: &Root,
) -> Result<Vec<PlacedEntry>, StoreRefusal>
    requires root { RootHasSpelling root.now }
    requires sectors { root.now.sectors ≡ (D.facts disk.old).sectors }
    ensures calls { AreCallsAtMost (most_catalogues + most_libraries)
        (D.facts disk.old) (D.facts disk.new) }
    ensures all_calls { IfOk result (λ entries.
        AreCallsExactly (length (catalogues_of root.now) + length entries.items)
        (D.facts disk.old) (D.facts disk.new)) }
    ensures same { IsTrue (D.facts disk.old).honest
        → AreReads (D.facts disk.old) (D.facts disk.new) }
    ensures fit { IfOk result (λ entries. HaveSpellings entries.items) }
    ensures count { IfOk result (λ entries. length entries.items ≡ root.now.library_count) }
    ensures listed { IsTrue (D.facts disk.old).honest → IfOk result (λ entries.
        IsListed (D.facts disk.old).now root.now entries.items) }
    ensures damaged { IsTrue (D.facts disk.old).honest → IfErr result (λ e.
        e ≡ StoreRefusal.Damaged → (entries : List PlacedEntry)
        → IsIntact (D.facts disk.old).now root.now entries → ⊥) }
    ensures device { IfErr result (λ e. e ≡ StoreRefusal.Device
        → (D.facts disk.old).failures < (D.facts disk.new).failures) }
    ensures refusals { IfErr result IsRefusalOfList }
{
    let listed = read_listed(alloc, disk, root)?;
    read_entries(alloc, disk, &listed)
}

/// Returns the entries of the current root `root`, with the data that a store keeps with them.
/// Reads each catalogue and each entry once, and writes nothing.
fn find_entries<D: Disk>(
    alloc: Global,
    disk: &mut D,
    root: Root,
) -> Result<FoundState, StoreRefusal>
    requires root { RootHasSpelling root }
    ensures found { IsFoundAfter 0 (D.facts disk.old) (D.facts disk.new) result }
    ensures root { IfOk result (λ found. found.root ≡ root) }
    ensures same { IsTrue (D.facts disk.old).honest
        → AreReads (D.facts disk.old) (D.facts disk.new) }
    ensures intact { IsTrue (D.facts disk.old).honest
        → IsCurrent (sector (D.facts disk.old).now 0) (sector (D.facts disk.old).now 1) root
        → IfOk result (λ found.
        IsIntact (D.facts disk.old).now found.root found.entries.items) }
    ensures refused { IsTrue (D.facts disk.old).honest
        → IfErr result (RefusesEntries (D.facts disk.old).now root) }
    ensures refusals { IfErr result IsRefusalOfList }
{
    if root.sectors != disk.sectors() {
        return Err(StoreRefusal::Damaged);
    }
    let entries = read_listed_entries(alloc, disk, &root)?;
    FoundState::over(alloc, root, entries)
}

/// Returns the contents of a disk of version 1 or 2, in the form in which a store keeps them.
/// Writes nothing.
pub(crate) fn find_store<D: Disk>(alloc: Global, disk: &mut D) -> Result<FoundState, StoreRefusal>
    requires { IsGeometry (D.facts disk.old).sectors }
    ensures finds { Finds (RefusesLook StandsEither) (D.facts disk.old) (D.facts disk.new) result }
    ensures refusals { IfErr result (λ e. (e ≡ StoreRefusal.Device)
        ⊎ (e ≡ StoreRefusal.NotFormatted) ⊎ (e ≡ StoreRefusal.Damaged)
        ⊎ (e ≡ StoreRefusal.OutOfMemory)) }
{
    let root = read_root(disk)?;
    find_entries(alloc, disk, root)
}

/// Returns the contents of a disk of version 2, in the form in which a store keeps them. Refuses
/// with OldFormat if the current root is of version 1. Writes nothing.
pub(crate) fn find_current<D: Disk>(alloc: Global, disk: &mut D) -> Result<FoundState, StoreRefusal>
    requires { IsGeometry (D.facts disk.old).sectors }
    ensures finds { Finds (RefusesOpen Stands) (D.facts disk.old) (D.facts disk.new) result }
    ensures version { IfOk result (λ found. version_of found.root ≡ Two) }
    ensures refusals { IfErr result (λ e. (e ≡ StoreRefusal.Device)
        ⊎ (e ≡ StoreRefusal.NotFormatted) ⊎ (e ≡ StoreRefusal.Damaged)
        ⊎ (e ≡ StoreRefusal.OutOfMemory) ⊎ (e ≡ StoreRefusal.OldFormat)) }
    ensures old_calls { IfErr result (λ e. e ≡ StoreRefusal.OldFormat
        → AreCallsExactly 3 (D.facts disk.old) (D.facts disk.new)) }
{
    let root = read_root(disk)?;
    match root.version() {
        Version::One => Err(StoreRefusal::OldFormat),
        Version::Two => find_entries(alloc, disk, root),
    }
}
