// Holds all byte strings of a store.
ghost use Rattle.std.specs.Prelude.{◌≡◌, ◌≤◌, [], IsFalse, length, vec_capacity};
ghost use Rattle.snapshots.specs.inside.HoldsAll.{HoldsAll};
ghost use Rattle.store.specs.Holds.{AreHolds};

use crate::release::release;
use sector_disk::Disk;
use store::{Held, Store, StoreRefusal};

/// Holds each byte string of a store, in the order of the positions, and puts the handles into the
/// vector `room`. If a hold is refused, releases the byte strings that this call has held.
pub(crate) fn hold_all<D: Disk>(
    store: &mut Store<D>,
    room: Vec<Held>,
) -> Result<Vec<Held>, StoreRefusal>
    requires empty { room.items ≡ [] }
    requires room { length store.old.entries ≤ vec_capacity room }
    requires usable { IsFalse store.old.failed }
    requires sound { AreHolds store.old }
    ensures { HoldsAll D.facts store.old store.new result }
{
    let mut handles = room;
    for position in 0..store.count() {
        match store.hold(position) {
            Ok(held) => match handles.push(held) {
                Ok(()) => {}
                Err(_) => unreachable!(),
            },
            Err(refusal) => {
                release(store, handles);
                // Each held byte string has one row. For this reason, exactly the byte strings that
                // were held before are held now.
                store.holds_are_sound();
                return Err(refusal);
            }
        }
    }
    Ok(handles)
}
