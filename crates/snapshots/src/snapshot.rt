use crate::find::{find, held_name};
use crate::hold_all::hold_all;
use crate::release::release;
use sector_disk::Disk;
use std::alloc::Global;
use std::marker::Model;
use store::{Held, Store, StoreRefusal};

/// All byte strings of a store as they were when the snapshot was taken. The snapshot has a handle
/// for each of them. Like a handle, a snapshot is valid only for its own store, until it is passed
/// to `let_go`.
#[derive(Drop)]
pub struct Snapshot {
    handles: Vec<Held>,
    // The positions in the order of the names, and the positions of the preloads.
    order: Vec<u16>,
    preloads: Vec<u16>,
}

impl Model for Snapshot {
    ghost use Rattle.snapshots.specs.Snapshot.{Taken};
    ghost use Rattle.snapshots.specs.inside.Places.{AreInside};

    ghost Value = { Taken };

    ghost view = { λ snapshot. record {
      handles = snapshot.handles.items;
      order = snapshot.order.items;
      preloads = snapshot.preloads.items;
    } };

    ghost invariant = { λ s. AreInside s.handles.items s.preloads.items };
}

impl Snapshot {
    ghost use Rattle.std.specs.Prelude.{◌≡◌, ◌≢◌, ◌<◌, ◌≤◌, List, All, IsNone, IfSome, length};
    ghost use Rattle.std.specs.Prelude.{nat_eq, slice_index_or};
    ghost use Rattle.std.specs.List.{IsDistinct};
    ghost use Rattle.snapshots.specs.Snapshot.{Takes, LetsAllGo, IsTakenOf};
    ghost use Rattle.store.specs.declared.placed_entry.PlacedEntry.{PlacedEntry};
    ghost use Rattle.store.specs.Holds.{IsHeldBy, ReadsHeld};
    ghost use Rattle.store.specs.Stands.{name_of};

    /// Holds all byte strings of a store as they are now. Makes no call of the disk, and copies no
    /// bytes. Allocates the snapshot's own memory before it holds the first byte string.
    pub fn take<D: Disk>(alloc: Global, store: &mut Store<D>) -> Result<Snapshot, StoreRefusal>
        ensures { Takes D.facts store.old store.new result }
    {
        // Even after a refusal, a held byte string is marked as listed if and only if the state
        // lists it.
        store.holds_are_sound();
        let count = store.count();
        if store.has_failed() {
            return Err(StoreRefusal::Reopen);
        }
        let room = Vec::with_capacity(alloc, count)?;
        let order = store.order().to_vec(alloc)?;
        let preloads = store.preloads().to_vec(alloc)?;
        let handles = hold_all(store, room)?;
        Ok(Snapshot {
            handles,
            order,
            preloads,
        })
    }

    /// The number of byte strings.
    pub fn count(&self) -> usize
        ensures count { result ≡ length self.now.handles }
        ensures few { result ≤ 2048 }
    {
        self.handles.len()
    }

    /// The positions of the preloads, in the order in which they were chosen.
    pub fn preloads(&self) -> &[u16]
        ensures value { result.now ≡ self.now.preloads }

        // On any disk, each number is the position of a byte string, and no number occurs twice.
        ensures inside { All (λ p. p < length self.now.handles) result.now }
        ensures once { IsDistinct nat_eq result.now }
    {
        &self.preloads
    }

    /// Returns the name of the byte string at `position`, or the empty name if nobody holds the
    /// byte string in this store.
    pub fn name<'a, D: Disk>(&self, store: &'a Store<D>, position: usize) -> &'a [u8]
        requires { position < length self.now.handles }
        ensures { (placed : PlacedEntry)
            → IsHeldBy store.now.held (slice_index_or self.now.handles position 0) placed
            → result.now ≡ name_of placed.entry }
    {
        held_name(store, &self.handles[position])
    }

    /// Returns the position of the byte string with the name `name`, if there is one. Makes a
    /// binary search by name: at most 13 comparisons, each of which looks up a name in the store's
    /// table of held byte strings.
    pub fn position<D: Disk>(&self, store: &Store<D>, name: &[u8]) -> Option<usize>
        ensures within { IfSome result (λ i. i < length self.now.handles) }
        ensures few { length self.now.handles ≤ 2048 }
        ensures none { (entries : List PlacedEntry) → IsTakenOf store.now.held self.now entries
            → IsNone result → All (λ placed. name_of placed.entry ≢ name.now) entries }
        ensures some { (entries : List PlacedEntry) → IsTakenOf store.now.held self.now entries
            → IfSome result (λ i. (i < length entries) × ((d : PlacedEntry)
            → name_of (slice_index_or entries i d).entry ≡ name.now)) }
    {
        find(store, &self.handles, &self.order, name)
    }

    /// Returns the byte string at `position`, as it was when the snapshot was taken. Reads each of
    /// its sectors once, and writes nothing.
    pub fn read<D: Disk>(
        &self,
        alloc: Global,
        store: &mut Store<D>,
        position: usize,
    ) -> Result<Vec<u8>, StoreRefusal>
        requires { position < length self.now.handles }
        ensures { ReadsHeld D.facts store.old store.new
            (slice_index_or self.now.handles position 0) result }
    {
        store.read_held(alloc, &self.handles[position])
    }

    /// Releases all byte strings of the snapshot. Allocates nothing and makes no call of the disk.
    /// Also succeeds if an earlier call of the disk failed.
    pub fn let_go<D: Disk>(self, store: &mut Store<D>)
        ensures { LetsAllGo D.facts store.old store.new self.handles }
    {
        let Snapshot {
            handles,
            order: _,
            preloads: _,
        } = self;
        release(store, handles);
    }
}
