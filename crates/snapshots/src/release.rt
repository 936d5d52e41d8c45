// Releases byte strings.
ghost use Rattle.snapshots.specs.Snapshot.{LetsAllGo};

use sector_disk::Disk;
use store::{Held, Store};

/// Releases the byte strings of all `handles`. Allocates nothing.
pub(crate) fn release<D: Disk>(store: &mut Store<D>, handles: Vec<Held>)
    ensures { LetsAllGo D.facts store.old store.new handles.items }
{
    // Each held byte string has a holder, even if there are no handles to release.
    store.holds_are_sound();
    let mut left = handles;
    while let Some(held) = left.pop() {
        store.let_go(held);
    }
}
