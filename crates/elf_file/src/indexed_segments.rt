// A file's segments with an index of the PT_LOADs.

ghost use Rattle.std.specs.Prelude.{◌≡◌, ◌<◌, false};
ghost use Rattle.elf_file.specs.Segment.{program_header, has_bad_order};
ghost use Rattle.elf_file.specs.Header.{header_count};
ghost use Rattle.elf_file.specs.inside.Index.{Indexes};

use crate::headers::Headers;
use crate::load_index::LoadIndex;
use crate::segment::ProgramHeader;
use std::marker::Model;

/// The segments of a file, with an index that finds the PT_LOAD at an address. Callers that look up
/// many addresses use this type. `Segments` has no index, so that it stays small. In contracts, the
/// value is the file's bytes.
#[derive(Drop)]
pub struct IndexedSegments<'a> {
    headers: Headers<'a>,
    index: LoadIndex,
}

impl<'a> Model for IndexedSegments<'a> {
    ghost use Rattle.std.specs.Prelude.{List, ℕ};
    ghost use Rattle.elf_file.specs.inside.Index.{IsIndexed};

    ghost Value = { List ℕ };

    ghost view = { λ s. s.headers };

    ghost invariant = { λ s. IsIndexed s.headers s.index };
}

impl<'a> IndexedSegments<'a> {
    /// Makes the index for a file in which each PT_LOAD begins at or above the end of the one
    /// before it.
    pub(crate) fn new(headers: Headers<'a>) -> IndexedSegments<'a>
        requires { has_bad_order headers ≡ false }
        ensures { result ≡ headers.entry }
    {
        let index = LoadIndex::new(&headers);
        IndexedSegments { headers, index }
    }

    /// The headers. The contract also states that each PT_LOAD begins at or above the end of the
    /// one before it.
    pub(crate) fn headers(&self) -> &Headers<'a>
        ensures same { result.now ≡ self.now }
        ensures order { has_bad_order self.now ≡ false }
    {
        &self.headers
    }

    /// The number of program headers.
    pub(crate) fn header_count(&self) -> usize
        ensures ok { result ≡ header_count self.now }
        ensures most { result < 65536 }
    {
        self.headers.count()
    }

    /// Returns program header number `i`.
    pub(crate) fn header(&self, i: usize) -> ProgramHeader
        requires { i < header_count self.now }
        ensures { result ≡ program_header self.now i }
    {
        self.headers.nth(i)
    }

    /// The index of the PT_LOADs.
    pub(crate) fn index(&self) -> &LoadIndex
        ensures indexes { Indexes self.now (header_count self.now) result.now }
        ensures order { has_bad_order self.now ≡ false }
    {
        &self.index
    }
}
