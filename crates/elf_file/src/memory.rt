// Finds bytes in the memory of the PT_LOADs (gABI chapter 5, `p_vaddr` and `p_memsz`).

ghost use Rattle.std.specs.Prelude.{◌≡◌, ◌<◌, true, false, MatchOption};
ghost use Rattle.elf_file.specs.Address.{is_in_memory_part, is_in_memory, IsLoadOf};

use crate::indexed_segments::IndexedSegments;
use crate::load_index::BLOCK;
use crate::segment::ProgramHeader;

/// Returns whether the memory part of the PT_LOAD `h` has the `size` bytes at `address`.
pub fn is_in_memory_part(address: u64, size: u64, h: ProgramHeader) -> bool
    ensures { result ≡ is_in_memory_part address size h }
{
    h.address <= address
        && u128::from(address) + u128::from(size)
            <= u128::from(h.address) + u128::from(h.memory_size)
}

impl IndexedSegments<'_> {
    /// Returns the PT_LOAD whose memory part has the `size` bytes at `address`, or `None` if there
    /// is none. It can only be in the last block that begins at or below `address`, because each
    /// PT_LOAD begins at or above the end of the one before it. Makes a binary search over the
    /// blocks, one over the headers of a block, and a pass over the remaining headers.
    pub fn load_at(&self, address: u64, size: u64) -> Option<ProgramHeader>
        requires { 0 < size }
        ensures { MatchOption result (is_in_memory self.now address size ≡ false)
            (λ h. IsLoadOf self.now h × (is_in_memory_part address size h ≡ true)) }
    {
        let Some(block) = self.block_at(address) else {
            return None;
        };
        let first = self.narrowed(block, address);
        let end = self.header_count().min(first + BLOCK);
        for j in first..end {
            if self.headers().is_load(j) {
                let h = self.header(j);
                if is_in_memory_part(address, size, h) {
                    return Some(h);
                }
            }
        }
        None
    }
}
