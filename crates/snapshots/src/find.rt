// Finds a byte string of a snapshot by its name.
ghost use Rattle.std.specs.Prelude.{◌≡◌, ◌≢◌, ◌<◌, List, All, IsNone, IfSome, length};
ghost use Rattle.std.specs.Prelude.{slice_index_or};
ghost use Rattle.std.specs.Ordering.{is_lt};
ghost use Rattle.snapshots.specs.Snapshot.{AreHeldBy};
ghost use Rattle.store.specs.declared.placed_entry.PlacedEntry.{PlacedEntry};
ghost use Rattle.store.specs.Holds.{IsHeldBy};
ghost use Rattle.store.specs.NameOrder.{IsOrderOf, entry_names, name_at};
ghost use Rattle.store.specs.Stands.{name_of};
ghost use Rattle.store.specs.inside.NameIndex.{IsPlace, order_to};

use sector_disk::Disk;
use store::{Held, Store};

/// Returns the name of a held byte string, or the empty name if nobody holds the byte string in
/// this store.
pub(crate) fn held_name<'a, D: Disk>(store: &'a Store<D>, held: &Held) -> &'a [u8]
    ensures { (placed : PlacedEntry) → IsHeldBy store.now.held held.now placed
        → result.now ≡ name_of placed.entry }
{
    // A held byte string has a holder, so a byte string without a name isn't held.
    store.holds_are_sound();
    match store.held_name(held) {
        Some(name) => name,
        None => &[],
    }
}

/// Returns the name of the held byte string at `position`, or the empty name if there is no such
/// byte string.
fn name_at<'a, D: Disk>(store: &'a Store<D>, handles: &[Held], position: u16) -> &'a [u8]
    ensures { (entries : List PlacedEntry) → AreHeldBy store.now.held handles.now entries
        → result.now ≡ name_at (entry_names entries) position }
{
    match handles.get(usize::from(position)) {
        Some(held) => held_name(store, held),
        None => &[],
    }
}

/// Returns whether the name at `position` comes before `name`.
fn precedes<D: Disk>(store: &Store<D>, handles: &[Held], position: u16, name: &[u8]) -> bool
    ensures { (entries : List PlacedEntry) → AreHeldBy store.now.held handles.now entries
        → result ≡ is_lt (order_to (entry_names entries) name.now position) }
{
    name_at(store, handles, position).cmp(name).is_lt()
}

/// Returns the place of `name` in the order: the number of names that come before it.
fn place_of<D: Disk>(store: &Store<D>, handles: &[Held], order: &[u16], name: &[u8]) -> usize
    ensures { (entries : List PlacedEntry) → AreHeldBy store.now.held handles.now entries
        → IsOrderOf (entry_names entries) order.now
        → IsPlace (entry_names entries) order.now name.now result }
{
    order.partition_point(|position| precedes(store, handles, *position, name))
}

/// Returns the position of the handle whose byte string has the name `name`, if there is one.
pub(crate) fn find<D: Disk>(
    store: &Store<D>,
    handles: &[Held],
    order: &[u16],
    name: &[u8],
) -> Option<usize>
    ensures within { IfSome result (λ i. i < length handles.now) }
    ensures none { (entries : List PlacedEntry) → AreHeldBy store.now.held handles.now entries
        → IsOrderOf (entry_names entries) order.now → IsNone result
        → All (λ placed. name_of placed.entry ≢ name.now) entries }
    ensures some { (entries : List PlacedEntry) → AreHeldBy store.now.held handles.now entries
        → IsOrderOf (entry_names entries) order.now → IfSome result (λ i. (i < length entries)
        × ((d : PlacedEntry) → name_of (slice_index_or entries i d).entry ≡ name.now)) }
{
    let place = place_of(store, handles, order, name);
    let position = usize::from(*order.get(place)?);
    let held = handles.get(position)?;
    if held_name(store, held) == name {
        Some(position)
    } else {
        None
    }
}
