// The program headers and their tests (gABI chapter 5).

ghost use Rattle.std.specs.Prelude.{◌≡◌};
ghost use Rattle.elf_file.specs.Segment.{is_bad_load, is_too_high, is_out_of_order};
ghost use Rattle.elf_file.specs.Segment.{has_tls_segment, has_load, has_bad_load, has_bad_segment};
ghost use Rattle.elf_file.specs.Segment.{has_high_segment, is_too_large, has_bad_order};
ghost use Rattle.elf_file.specs.Dynamic.{dynamic_count, find_dynamic};

use crate::headers::Headers;
use crate::load_segments::LoadSegments;

/// A program header of the file (gABI chapter 5, `Elf64_Phdr`).
#[derive(Clone, Copy, PartialEq, Eq)]
pub struct ProgramHeader {
    /// `p_type`.
    pub kind: u32,
    /// `p_flags`: 1 permits execution, 2 writing, 4 reading. The crate ignores all other bits.
    pub flags: u32,
    /// `p_offset`, in bytes from the file's start.
    pub offset: u64,
    /// `p_vaddr`, an address to which the base hasn't been added.
    pub address: u64,
    /// `p_filesz`, in bytes.
    pub file_size: u64,
    /// `p_memsz`, in bytes.
    pub memory_size: u64,
    /// `p_align`, in bytes.
    pub alignment: u64,
}

/// The type of a segment that is loaded.
pub const PT_LOAD: u32 = 1;
/// The type of the segment that has the dynamic section.
const PT_DYNAMIC: u32 = 2;
/// The type of a segment of thread-local data.
const PT_TLS: u32 = 7;

/// The maximum length of a file, in bytes.
const LARGEST_FILE: usize = 16_777_216;
/// The highest address at which an object's memory may end.
const HIGHEST_END: u64 = 67_108_864;

/// Returns whether `h` is a PT_LOAD with a wrong file size, file end or alignment, in a file of
/// `size` bytes.
fn is_bad_load(size: usize, h: ProgramHeader) -> bool
    ensures { result ≡ is_bad_load size h }
{
    h.kind == PT_LOAD
        && (h.file_size > h.memory_size
            || (h.file_size > 0 && u128::from(h.offset) + u128::from(h.file_size) > size as u128)
            || (h.alignment > 1
                && (!h.alignment.is_power_of_two()
                    || h.address % h.alignment != h.offset % h.alignment)))
}

fn is_too_high(h: ProgramHeader) -> bool
    ensures { result ≡ is_too_high h }
{
    h.kind == PT_LOAD && u128::from(h.address) + u128::from(h.memory_size) > u128::from(HIGHEST_END)
}

/// Returns whether the PT_LOAD `next` begins before the end of the PT_LOAD `first`.
fn is_out_of_order(first: ProgramHeader, next: ProgramHeader) -> bool
    ensures { result ≡ is_out_of_order (first, next) }
{
    u128::from(next.address) < u128::from(first.address) + u128::from(first.memory_size)
}

impl Headers<'_> {
    pub(crate) fn has_tls_segment(&self) -> bool
        ensures { result ≡ has_tls_segment self.now }
    {
        (0..self.count()).any(|i| self.nth(i).kind == PT_TLS)
    }

    fn has_load(&self) -> bool
        ensures { result ≡ has_load self.now }
    {
        self.next_load(0) < self.count()
    }

    fn has_bad_load(&self) -> bool
        ensures { result ≡ has_bad_load self.now }
    {
        let size = self.file().len();
        LoadSegments::new(self).any(|h| is_bad_load(size, h))
    }

    pub(crate) fn has_bad_segment(&self) -> bool
        ensures { result ≡ has_bad_segment self.now }
    {
        !self.has_load() || self.has_bad_load()
    }

    fn has_high_segment(&self) -> bool
        ensures { result ≡ has_high_segment self.now }
    {
        LoadSegments::new(self).any(|h| is_too_high(h))
    }

    pub(crate) fn is_too_large(&self) -> bool
        ensures { result ≡ is_too_large self.now }
    {
        self.file().len() > LARGEST_FILE || self.has_high_segment()
    }

    pub(crate) fn has_bad_order(&self) -> bool
        ensures { result ≡ has_bad_order self.now }
    {
        let loads = LoadSegments::new(self);
        let others = LoadSegments::new(self).skip(1);
        loads.zip(others).any(|(a, b)| is_out_of_order(a, b))
    }

    /// The number of PT_DYNAMICs.
    pub(crate) fn dynamic_count(&self) -> usize
        ensures { result ≡ dynamic_count self.now }
    {
        (0..self.count())
            .filter(|i| self.nth(*i).kind == PT_DYNAMIC)
            .count()
    }

    /// Returns the first PT_DYNAMIC.
    #[tactic(auto, unfolding(crate::specs::Dynamic::find_dynamic))]
    pub(crate) fn find_dynamic(&self) -> Option<ProgramHeader>
        ensures { result ≡ find_dynamic self.now }
    {
        (0..self.count())
            .map(|i| self.nth(i))
            .find(|h| h.kind == PT_DYNAMIC)
    }
}
