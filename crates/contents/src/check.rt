// Tests whether the files of installed libraries are libraries.
ghost use Rattle.std.specs.Prelude.{◌≡◌, ◌≢◌, ◌⊎◌, ◌+◌, ◌<◌, ◌≤◌, ℕ, All, IfOk, OnErr, length};
ghost use Rattle.std.specs.Prelude.{count_by, slice_index_or, sum_by};
ghost use Rattle.sector_disk.specs.Disk.{AreCallsExactly, AreCallsAtMost};
ghost use Rattle.states.specs.State.{State};
ghost use Rattle.store.specs.declared.placed_entry.PlacedEntry.{PlacedEntry};
ghost use Rattle.store.specs.IsRead.{IsRead, file_sectors};
ghost use Rattle.store.specs.Opened.{IsAt};
ghost use Rattle.store.specs.Stands.{no_library};
ghost use Rattle.contents.specs.declared.finding.Finding.{Finding};
ghost use Rattle.contents.specs.Finding.{IsFinding, LacksMemory, is_unreadable};
ghost use Rattle.hash_check.specs.FileRefusal.{ReadNeedsMemory};

use crate::contents::Contents;
use crate::finding::Finding;
use crate::unread::Unread;
use requests::{Refusal, library_name};
use sector_disk::Disk;
use std::alloc::{AllocError, Global};

/// Returns the finding for the file `file` of a library with the name `name`. Fails only if memory
/// is refused for a test that allocates.
pub fn finding_of(alloc: Global, name: &[u8], file: &[u8]) -> Result<Finding, AllocError>
    ensures finding { IfOk result (IsFinding (record { name = name.now; bytes = file.now })) }
    ensures read { IfOk result (λ finding. finding ≢ Finding.Unreadable) }
    // The call fails only if all tests of the object accept the file and admission may need memory.
    ensures memory { OnErr result (ReadNeedsMemory file.now) }
{
    match library_name(alloc, file) {
        Ok(soname) => Ok(if soname == name {
            Finding::Sound
        } else {
            Finding::OtherName
        }),
        Err(Refusal::Object(refusal)) => Ok(Finding::Refused(refusal)),
        Err(_) => Err(AllocError),
    }
}

impl<D: Disk> Contents<D> {
    /// Reads each sector of the library at `position` once, and returns the finding. Fails only if
    /// memory is refused, for the bytes or for a test.
    pub fn check_at(&mut self, alloc: Global, position: usize) -> Result<Finding, AllocError>
        requires { position < length self.old.entries }
        ensures read { IsRead D.facts self.old self.new }
        ensures finding { (s : State) → IsAt D.facts self.old s
            → IfOk result (IsFinding (slice_index_or s.libraries position no_library)) }
        ensures device { IfOk result (λ finding. finding ≡ Finding.Unreadable
            → (D.facts self.old.disk).failures < (D.facts self.new.disk).failures) }
        ensures calls { (d : PlacedEntry) → AreCallsAtMost
            (file_sectors (slice_index_or self.old.entries position d))
            (D.facts self.old.disk) (D.facts self.new.disk) }
        ensures all_calls { (d : PlacedEntry) → IfOk result (λ finding.
            finding ≢ Finding.Unreadable → AreCallsExactly
            (file_sectors (slice_index_or self.old.entries position d))
            (D.facts self.old.disk) (D.facts self.new.disk)) }

        // If the call fails, it fails before the library is read, or at a test that allocates.
        ensures memory { (s : State) → IsAt D.facts self.old s → OnErr result
            ((self.new ≡ self.old)
            ⊎ ReadNeedsMemory (slice_index_or s.libraries position no_library).bytes) }
    {
        match self.read(alloc, position) {
            Ok(bytes) => finding_of(alloc, self.store.name(position), &bytes),
            Err(Unread::OutOfMemory) => Err(AllocError),
            Err(_) => Ok(Finding::Unreadable),
        }
    }

    /// Returns a finding for each library, in the order of the libraries. If a library is damaged
    /// or can't be read, its finding states this, and the check continues with the next library.
    /// Frees the bytes of each library before it reads the next one, and reads each sector once.
    /// Ends early only if memory is refused.
    pub fn check(&mut self, alloc: Global) -> Result<Vec<Finding>, AllocError>
        ensures read { IsRead D.facts self.old self.new }
        ensures all { IfOk result (λ findings.
            length findings.items ≡ length self.old.entries) }
        ensures findings { (s : State) → IsAt D.facts self.old s → IfOk result (λ findings.
            (i : ℕ) → i < length s.libraries → (d : Finding)
            → IsFinding (slice_index_or s.libraries i no_library)
            (slice_index_or findings.items i d)) }

        // On any disk, at least one call of the disk failed for each library that can't be read.
        ensures device { IfOk result (λ findings. (D.facts self.old.disk).failures
            + count_by is_unreadable findings.items ≤ (D.facts self.new.disk).failures) }
        ensures calls { AreCallsAtMost (sum_by file_sectors self.old.entries)
            (D.facts self.old.disk) (D.facts self.new.disk) }

        // If the check ends early, it ends before a library is read, or at a test that allocates.
        ensures memory { (s : State) → IsAt D.facts self.old s → OnErr result
            (LacksMemory (D.facts self.old.disk) (D.facts self.new.disk) self.old.entries s) }
    {
        let mut findings = Vec::with_capacity(alloc, self.store.count())?;
        for position in 0..self.store.count() {
            let finding = self.check_at(alloc, position)?;
            findings.push_reserved(finding);
        }
        Ok(findings)
    }
}
