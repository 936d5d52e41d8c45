// Holds byte strings. A held byte string can be read unchanged, even after it was replaced or
// removed.
use crate::read::read_file;
use crate::refusal::StoreRefusal;
use crate::room::give_back;
use crate::store::Store;
use sector_disk::Disk;
use std::alloc::Global;
use std::marker::Model;

/// A holder's right to read a byte string as it was when the hold began, until the holder passes
/// the handle to `Store::let_go`. A program can't make or copy a handle. If a handle is dropped,
/// the sectors of its byte string stay in use until the store is opened again.
#[derive(Drop)]
pub struct Held {
    // The sector of the byte string's entry.
    pub(crate) at: u32,
}

impl Model for Held {
    ghost use Rattle.std.specs.Prelude.{ℕ};

    ghost Value = { ℕ };

    ghost view = { λ held. held.at };
}

impl<D: Disk> Store<D> {
    ghost use Rattle.std.specs.Prelude.{◌≡◌, ◌<◌, ◌↔◌, IsNone, IfSome, length};
    ghost use Rattle.store.specs.declared.placed_entry.PlacedEntry.{PlacedEntry};
    ghost use Rattle.store.specs.Holds.{IsHeldBy, holders_of};
    ghost use Rattle.store.specs.Holds.{TakesHold, ReadsHeld, LetsHoldGo};
    ghost use Rattle.store.specs.Stands.{name_of};

    /// Makes the caller a holder of the byte string at `position`, with its present bytes. Makes no
    /// call of the disk, and copies no bytes. Allocates memory only for the first holder of a byte
    /// string. Refuses with S2 or S11.
    pub fn hold(&mut self, position: usize) -> Result<Held, StoreRefusal>
        requires { position < length self.old.entries }
        ensures { TakesHold D.facts self.old self.new position result }
    {
        if self.kept.failed {
            return Err(StoreRefusal::Reopen);
        }
        let placed = &self.kept.entries[position];
        self.kept.held.hold(placed)?;
        Ok(Held { at: placed.at })
    }

    /// Returns the name of the held byte string, or `None` if nobody holds it in this store. Makes
    /// no call of the disk.
    pub fn held_name(&self, held: &Held) -> Option<&[u8]>
        ensures none { IsNone result ↔ (holders_of self.now.held held.now ≡ 0) }
        ensures some { IfSome result (λ name. (placed : PlacedEntry)
            → IsHeldBy self.now.held held.now placed → name.now ≡ name_of placed.entry) }
    {
        let placed = self.kept.held.placed(held.at)?;
        Some(placed.entry.name_bytes())
    }

    /// Returns the byte string of the handle `held`. Reads each of its sectors once, and writes
    /// nothing. Refuses with S2, S11 or S1. Refuses with Damaged, without a call of the disk, if
    /// nobody holds the byte string in this store; this means that the handle comes from another
    /// store, or from before the disk was opened again. A handle identifies only the sector of an
    /// entry. So a handle from elsewhere reads the byte string that is held in this store by that
    /// sector, if there is one.
    pub fn read_held(&mut self, alloc: Global, held: &Held) -> Result<Vec<u8>, StoreRefusal>
        ensures { ReadsHeld D.facts self.old self.new held.now result }
    {
        if self.kept.failed {
            return Err(StoreRefusal::Reopen);
        }
        let Some(placed) = self.kept.held.placed(held.at) else {
            return Err(StoreRefusal::Damaged);
        };
        read_file(&mut self.disk, placed, Vec::new(alloc))
    }

    /// Releases a held byte string. If this was its last holder and the state no longer lists it,
    /// its sectors become unused. Makes no call of the disk and allocates nothing. Also succeeds if
    /// an earlier call of the disk failed. If nobody holds the byte string in this store, does
    /// nothing. A handle from another store, or from before the disk was opened again, has the same
    /// effect as in `read_held`.
    pub fn let_go(&mut self, held: Held)
        ensures { LetsHoldGo D.facts self.old self.new held }
    {
        let Held { at } = held;
        if let Some(hold) = self.kept.held.let_go(at) {
            if !hold.listed {
                give_back(&mut self.kept.layout, &hold.placed);
            }
        }
    }
}
