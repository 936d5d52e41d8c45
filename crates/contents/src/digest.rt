// Computes the digests of installed libraries.
ghost use Rattle.std.specs.Prelude.{◌≡◌, ◌≢◌, ◌+◌, ◌<◌, ◌≤◌, ◌↔◌, ℕ, List, All, Err, IfErr, IfOk};
ghost use Rattle.std.specs.Prelude.{None, OnOk, Option, count_by, is_none, length};
ghost use Rattle.std.specs.Prelude.{slice_index_or, sum_by};
ghost use Rattle.sector_disk.specs.Disk.{AreCallsExactly, AreCallsAtMost};
ghost use Rattle.sha2.specs.Sha256.{sha256};
ghost use Rattle.states.specs.State.{State};
ghost use Rattle.store.specs.declared.placed_entry.PlacedEntry.{PlacedEntry};
ghost use Rattle.store.specs.IsRead.{IsRead, file_sectors};
ghost use Rattle.store.specs.Opened.{IsAt};
ghost use Rattle.store.specs.Stands.{no_library};
ghost use Rattle.contents.specs.Digest.{IsDigest, IsDigestOfSome};
ghost use Rattle.contents.specs.File.{HasEntry, HasFile};

use crate::contents::Contents;
use crate::unread::Unread;
use sector_disk::Disk;
use sha2::{Digest, Sha256};
use std::alloc::{AllocError, Global};

impl<D: Disk> Contents<D> {
    /// Returns the SHA-256 of the bytes of the library at `position`, or `None` if the bytes can't
    /// be read. Reads each of their sectors once. Fails only if memory is refused.
    pub fn digest_at(
        &mut self,
        alloc: Global,
        position: usize,
    ) -> Result<Option<[u8; 32]>, AllocError>
        requires { position < length self.old.entries }
        ensures read { IsRead D.facts self.old self.new }
        ensures digest { (s : State) → IsAt D.facts self.old s → IfOk result
            (IsDigest (slice_index_or s.libraries position no_library).bytes) }
        ensures some { IfOk result IsDigestOfSome }
        ensures device { IfOk result (λ digest. digest ≡ None
            → (D.facts self.old.disk).failures < (D.facts self.new.disk).failures) }
        ensures calls { (d : PlacedEntry) → AreCallsAtMost
            (file_sectors (slice_index_or self.old.entries position d))
            (D.facts self.old.disk) (D.facts self.new.disk) }
        ensures all_calls { (d : PlacedEntry) → IfOk result (λ digest.
            digest ≢ None → AreCallsExactly
            (file_sectors (slice_index_or self.old.entries position d))
            (D.facts self.old.disk) (D.facts self.new.disk)) }
    {
        match self.read(alloc, position) {
            Ok(bytes) => Ok(Some(Sha256::digest(&bytes))),
            Err(Unread::OutOfMemory) => Err(AllocError),
            Err(_) => Ok(None),
        }
    }

    /// Returns the SHA-256 of the bytes of each library, in the order of the libraries, or `None`
    /// for a library that can't be read. Doesn't test whether the files are still libraries. Frees
    /// the bytes of each library before it reads the next one, and reads each sector once. Ends
    /// early only if memory is refused.
    pub fn digests(&mut self, alloc: Global) -> Result<Vec<Option<[u8; 32]>>, AllocError>
        ensures read { IsRead D.facts self.old self.new }
        ensures all { IfOk result (λ digests.
            length digests.items ≡ length self.old.entries) }
        ensures digests { (s : State) → IsAt D.facts self.old s → IfOk result (λ digests.
            (i : ℕ) → i < length s.libraries → (d : Option (List ℕ))
            → IsDigest (slice_index_or s.libraries i no_library).bytes
            (slice_index_or digests.items i d)) }

        // On any disk, at least one call of the disk failed for each library that can't be read.
        ensures some { IfOk result (λ digests. All IsDigestOfSome digests.items) }
        ensures device { IfOk result (λ digests. (D.facts self.old.disk).failures
            + count_by is_none digests.items ≤ (D.facts self.new.disk).failures) }
        ensures calls { AreCallsAtMost (sum_by file_sectors self.old.entries)
            (D.facts self.old.disk) (D.facts self.new.disk) }
    {
        let mut digests = Vec::with_capacity(alloc, self.store.count())?;
        for position in 0..self.store.count() {
            let digest = self.digest_at(alloc, position)?;
            digests.push_reserved(digest);
        }
        Ok(digests)
    }

    /// Returns the SHA-256 of the bytes of the library with the name `name`. Reads each sector of
    /// the bytes once, as `file` does. If no library has the name, reads nothing.
    pub fn digest(&mut self, alloc: Global, name: &[u8]) -> Result<[u8; 32], Unread>
        ensures read { IsRead D.facts self.old self.new }

        // The digest is that of the library's bytes. The library has no other bytes.
        ensures ok { (s : State) → IsAt D.facts self.old s → IfOk result (λ digest.
            (bytes : List ℕ) × HasFile s name.now bytes × (digest ≡ sha256 bytes)) }
        ensures only { (s : State) → IsAt D.facts self.old s
            → IfOk result (λ digest. (other : List ℕ) → HasFile s name.now other
            → digest ≡ sha256 other) }
        ensures not_installed { (s : State) → IsAt D.facts self.old s
            → (result ≡ Err Unread.NotInstalled)
            ↔ All (λ library. library.name ≢ name.now) s.libraries }

        // The clauses from here on hold on any disk, honest or not.
        ensures device { IfErr result (λ e. e ≡ Unread.Unreadable
            → (D.facts self.old.disk).failures < (D.facts self.new.disk).failures) }
        ensures untouched { IfErr result (λ e. e ≢ Unread.Unreadable → self.new ≡ self.old) }
        ensures calls { (placed : PlacedEntry) → HasEntry self.old name.now placed
            → AreCallsAtMost (file_sectors placed)
            (D.facts self.old.disk) (D.facts self.new.disk) }
        ensures all_calls { (placed : PlacedEntry) → HasEntry self.old name.now placed
            → OnOk result (AreCallsExactly (file_sectors placed)
            (D.facts self.old.disk) (D.facts self.new.disk)) }
    {
        match self.file(alloc, name) {
            Ok(bytes) => Ok(Sha256::digest(&bytes)),
            Err(unread) => Err(unread),
        }
    }
}
