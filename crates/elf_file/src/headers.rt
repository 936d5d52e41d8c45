// A file whose headers have been tested.

ghost use Rattle.std.specs.Prelude.{◌≡◌, ◌≤◌, ◌<◌, ◌+◌, length, Some, None, MatchResult};
ghost use Rattle.elf_file.specs.Header.{entry_address, header_count, headers_offset};
ghost use Rattle.elf_file.specs.Segment.{header_at, is_load, program_header};
ghost use Rattle.elf_file.specs.Refusal.{header_refusal};

use crate::ObjectRefusal;
use crate::first_refusal::test_header;
use crate::header::PROGRAM_HEADER_SIZE;
use crate::number::{u16_at, u32_at, u64_at};
use crate::segment::{PT_LOAD, ProgramHeader};
use std::marker::Model;

fn header_at(file: &[u8], at: usize) -> ProgramHeader
    requires { at + 56 ≤ length file.now }
    ensures { result ≡ header_at file.now at }
{
    ProgramHeader {
        kind: u32_at(file, at),
        flags: u32_at(file, at + 4),
        offset: u64_at(file, at + 8),
        address: u64_at(file, at + 16),
        file_size: u64_at(file, at + 32),
        memory_size: u64_at(file, at + 40),
        alignment: u64_at(file, at + 48),
    }
}

/// A file that none of the tests E1 to E10 refuses: its file header and its program headers are in
/// the file. In contracts, the value is the file's bytes.
#[derive(Drop)]
pub struct Headers<'a> {
    file: &'a [u8],
}

impl<'a> Model for Headers<'a> {
    ghost use Rattle.std.specs.Prelude.{List, ℕ};
    ghost use Rattle.elf_file.specs.Header.{HasHeaders};

    ghost Value = { List ℕ };

    ghost view = { λ h. h.file.now };

    ghost invariant = { λ h. HasHeaders h.file.now };
}

impl<'a> Headers<'a> {
    /// Makes the view of a file, or returns the refusal of the first of the tests E1 to E10 that
    /// applies.
    pub(crate) fn read(file: &'a [u8]) -> Result<Headers<'a>, ObjectRefusal>
        ensures { MatchResult result
            (λ headers. (header_refusal file.now ≡ None) × (headers ≡ file.now))
            (λ refusal. header_refusal file.now ≡ Some refusal) }
    {
        test_header(file)?;
        Ok(Headers { file })
    }

    /// Makes the view of a file that the tests E1 to E10 accept. Doesn't repeat these tests.
    pub(crate) fn of_accepted(file: &'a [u8]) -> Headers<'a>
        requires { header_refusal file.now ≡ None }
        ensures { result ≡ file.now }
    {
        Headers { file }
    }

    /// Returns another view of the same file.
    pub(crate) fn again(&self) -> Headers<'a>
        ensures { result ≡ self.now }
    {
        Headers { file: self.file }
    }

    /// The file.
    pub fn file(&self) -> &'a [u8]
        ensures { result.now ≡ self.now }
    {
        self.file
    }

    /// `e_entry`: the address at which the object begins to run, or 0 if it has none.
    pub(crate) fn entry(&self) -> u64
        ensures { result ≡ entry_address self.now }
    {
        u64_at(self.file, 24)
    }

    /// `e_phoff`: the offset of the program headers, in bytes from the file's start.
    pub(crate) fn offset(&self) -> u64
        ensures { result ≡ headers_offset self.now }
    {
        u64_at(self.file, 32)
    }

    /// `e_phnum`: the number of program headers.
    pub(crate) fn count(&self) -> usize
        ensures ok { result ≡ header_count self.now }
        ensures most { result < 65536 }
    {
        usize::from(u16_at(self.file, 56))
    }

    /// Returns program header number `i`.
    #[tactic(auto, unfolding(crate::specs::Segment::program_header))]
    pub(crate) fn nth(&self, i: usize) -> ProgramHeader
        requires { i < header_count self.now }
        ensures { result ≡ program_header self.now i }
    {
        let table = u64_at(self.file, 32) as usize;
        header_at(self.file, table + usize::from(PROGRAM_HEADER_SIZE) * i)
    }

    /// Returns whether program header number `i` is a PT_LOAD. Reads only its type.
    #[tactic(auto, unfolding(crate::specs::Segment::program_header))]
    pub(crate) fn is_load(&self, i: usize) -> bool
        requires { i < header_count self.now }
        ensures { result ≡ is_load (program_header self.now i) }
    {
        let table = u64_at(self.file, 32) as usize;
        u32_at(self.file, table + usize::from(PROGRAM_HEADER_SIZE) * i) == PT_LOAD
    }
}
