// Reads the bytes of a library.
ghost use Rattle.std.specs.Prelude.{◌≡◌, ◌≢◌, ◌<◌, ◌↔◌, ℕ, List, Err, All, IfOk, IfErr, OnOk};
ghost use Rattle.std.specs.Prelude.{length, slice_index_or};
ghost use Rattle.std.specs.Int.{div_ceil};
ghost use Rattle.sector_disk.specs.Disk.{sector_bytes, AreCallsExactly, AreCallsAtMost};
ghost use Rattle.states.specs.State.{State};
ghost use Rattle.store.specs.declared.placed_entry.PlacedEntry.{PlacedEntry};
ghost use Rattle.store.specs.IsRead.{IsRead, file_sectors};
ghost use Rattle.store.specs.Opened.{IsAt};
ghost use Rattle.store.specs.Stands.{no_library};
ghost use Rattle.contents.specs.File.{HasEntry, HasFile};

use crate::contents::Contents;
use crate::unread::Unread;
use sector_disk::Disk;
use std::alloc::Global;
use store::StoreRefusal;

impl<D: Disk> Contents<D> {
    /// Returns the bytes of the library at `position`. Reads each of the library's sectors once,
    /// and doesn't test whether the file is a library. Fails with `Unreadable` or `OutOfMemory`.
    pub fn read(&mut self, alloc: Global, position: usize) -> Result<Vec<u8>, Unread>
        requires { position < length self.old.entries }
        ensures read { IsRead D.facts self.old self.new }
        ensures ok { (s : State) → IsAt D.facts self.old s → IfOk result (λ bytes.
            bytes.items ≡ (slice_index_or s.libraries position no_library).bytes) }
        ensures installed { result ≢ Err Unread.NotInstalled }
        ensures device { IfErr result (λ e. e ≡ Unread.Unreadable
            → (D.facts self.old.disk).failures < (D.facts self.new.disk).failures) }
        ensures untouched { IfErr result (λ e. e ≡ Unread.OutOfMemory → self.new ≡ self.old) }
        ensures calls { (d : PlacedEntry) → AreCallsAtMost
            (file_sectors (slice_index_or self.old.entries position d))
            (D.facts self.old.disk) (D.facts self.new.disk) }
        ensures all_calls { (d : PlacedEntry) → OnOk result (AreCallsExactly
            (file_sectors (slice_index_or self.old.entries position d))
            (D.facts self.old.disk) (D.facts self.new.disk)) }
        ensures length { (d : PlacedEntry) → IfOk result (λ bytes. length bytes.items
            ≡ (slice_index_or self.old.entries position d).entry.file_length) }
    {
        match self.store.read_blob(alloc, position) {
            Ok(bytes) => Ok(bytes),
            Err(StoreRefusal::OutOfMemory) => Err(Unread::OutOfMemory),
            Err(_) => Err(Unread::Unreadable),
        }
    }

    /// Returns the bytes of the library with the name `name`, as they were installed. Only `check`
    /// tests whether the file is still a library. Reads each sector of the file once. If no library
    /// has the name, reads nothing.
    pub fn file(&mut self, alloc: Global, name: &[u8]) -> Result<Vec<u8>, Unread>
        ensures read { IsRead D.facts self.old self.new }

        // The bytes are those of the library with this name. It has no other bytes.
        ensures ok { (s : State) → IsAt D.facts self.old s
            → IfOk result (λ bytes. HasFile s name.now bytes.items) }
        ensures only { (s : State) → IsAt D.facts self.old s
            → IfOk result (λ bytes. (other : List ℕ) → HasFile s name.now other
            → other ≡ bytes.items) }
        ensures not_installed { (s : State) → IsAt D.facts self.old s
            → (result ≡ Err Unread.NotInstalled)
            ↔ All (λ library. library.name ≢ name.now) s.libraries }

        // The clauses from here on hold on any disk, honest or not.
        ensures device { IfErr result (λ e. e ≡ Unread.Unreadable
            → (D.facts self.old.disk).failures < (D.facts self.new.disk).failures) }
        ensures untouched { IfErr result (λ e. e ≢ Unread.Unreadable → self.new ≡ self.old) }
        ensures all_calls { IfOk result (λ bytes. AreCallsExactly
            (div_ceil (length bytes.items) sector_bytes)
            (D.facts self.old.disk) (D.facts self.new.disk)) }
        ensures calls { (placed : PlacedEntry) → HasEntry self.old name.now placed
            → AreCallsAtMost (file_sectors placed)
            (D.facts self.old.disk) (D.facts self.new.disk) }
        ensures length { (placed : PlacedEntry) → HasEntry self.old name.now placed
            → IfOk result (λ bytes. length bytes.items ≡ placed.entry.file_length) }
    {
        match self.store.position(name) {
            Some(position) => self.read(alloc, position),
            None => Err(Unread::NotInstalled),
        }
    }
}
