// Reads byte strings from a disk.
ghost use Rattle.std.specs.Prelude.{◌≡◌, ◌⊎◌, ◌<◌, ◌^◌, All, IsTrue, IfOk, IfErr, OnOk, length};
ghost use Rattle.std.specs.Int.{div_ceil};
ghost use Rattle.sector_disk.specs.Disk.{sector_bytes, AreCallsExactly, AreCallsAtMost};
ghost use Rattle.passes.specs.Bytes.{IsOnDisk};
ghost use Rattle.passes.specs.Calls.{AreReads};
ghost use Rattle.roots.specs.Entry.{EntryHasSpelling};
ghost use Rattle.store.specs.Reads.{ReadsBlob};
ghost use Rattle.store.specs.Stands.{extents_of, library_of};

use crate::old_store::OldStore;
use crate::placed_entry::PlacedEntry;
use crate::refusal::StoreRefusal;
use crate::store::Store;
use passes::read_bytes;
use sector_disk::{Disk, SECTOR_BYTES};
use std::alloc::Global;

/// Reads the byte string of the entry `placed` into the vector `buffer`, and returns the vector.
/// The previous contents of `buffer` don't matter. Reads each sector of the byte string once.
pub(crate) fn read_file<D: Disk>(
    disk: &mut D,
    placed: &PlacedEntry,
    buffer: Vec<u8>,
) -> Result<Vec<u8>, StoreRefusal>
    requires spelling { EntryHasSpelling placed.now.entry }
    requires inside { All (IsOnDisk (D.facts disk.old).sectors) (extents_of placed.now.entry) }
    requires fits { (D.facts disk.old).sectors < 2 ^ 32 }
    ensures calls { AreCallsAtMost (div_ceil placed.now.entry.file_length sector_bytes)
        (D.facts disk.old) (D.facts disk.new) }
    ensures all_calls { OnOk result (AreCallsExactly
        (div_ceil placed.now.entry.file_length sector_bytes)
        (D.facts disk.old) (D.facts disk.new)) }
    ensures same { IsTrue (D.facts disk.old).honest
        → AreReads (D.facts disk.old) (D.facts disk.new) }
    ensures read { IsTrue (D.facts disk.old).honest → IfOk result (λ bytes.
        bytes.items ≡ (library_of (D.facts disk.old).now placed.now).bytes) }
    ensures length { IfOk result (λ bytes. length bytes.items ≡ placed.now.entry.file_length) }
    ensures refused { IfErr result (λ e. ((e ≡ StoreRefusal.Device)
        × ((D.facts disk.old).failures < (D.facts disk.new).failures))
        ⊎ ((e ≡ StoreRefusal.OutOfMemory) × (disk.new ≡ disk.old))) }
{
    let size = SECTOR_BYTES * placed.entry.file_length.div_ceil(SECTOR_BYTES as u32) as usize;
    let mut bytes = buffer;
    bytes.reserve_exact(size.saturating_sub(bytes.len()))?;
    bytes.resize(size, 0)?;
    read_bytes(disk, placed.entry.file_extents(), &mut bytes)?;
    bytes.truncate(placed.entry.file_length as usize);
    Ok(bytes)
}

impl<D: Disk> Store<D> {
    ghost use Rattle.roots.specs.declared.version.Version.TheVariants.{Two};

    /// Returns the byte string at `position`. Reads each of its sectors once, and writes nothing.
    /// Refuses with S2, S11 or S1.
    pub fn read_blob(&mut self, alloc: Global, position: usize) -> Result<Vec<u8>, StoreRefusal>
        requires { position < length self.old.entries }
        ensures { ReadsBlob Two D.facts self.old self.new position result }
    {
        self.read_blob_into(position, Vec::new(alloc))
    }

    /// Reads the byte string at `position` into the vector `buffer`, and returns the vector. The
    /// previous contents of `buffer` don't matter. The vector grows only if it is too small. So if
    /// you read several byte strings into one vector, you need memory only for the largest of them.
    /// Refuses with S2, S11 or S1.
    pub fn read_blob_into(
        &mut self,
        position: usize,
        buffer: Vec<u8>,
    ) -> Result<Vec<u8>, StoreRefusal>
        requires { position < length self.old.entries }
        ensures { ReadsBlob Two D.facts self.old self.new position result }
    {
        if self.kept.failed {
            return Err(StoreRefusal::Reopen);
        }
        read_file(&mut self.disk, &self.kept.entries[position], buffer)
    }
}

impl<D: Disk> OldStore<D> {
    ghost use Rattle.roots.specs.declared.version.Version.TheVariants.{One};

    /// Returns the byte string at `position`. Reads each of its sectors once, and writes nothing.
    /// Refuses with S11 or S1.
    pub fn read_blob(&mut self, alloc: Global, position: usize) -> Result<Vec<u8>, StoreRefusal>
        requires { position < length self.old.entries }
        ensures { ReadsBlob One D.facts self.old self.new position result }
    {
        read_file(
            &mut self.disk,
            &self.found.entries[position],
            Vec::new(alloc),
        )
    }
}
