// A file whose segments have been tested.

ghost use Rattle.std.specs.Prelude.{◌≡◌, ◌<◌, length, false, Some, None, MatchResult, slice_get};
ghost use Rattle.elf_file.specs.Segment.{program_header, loads};
ghost use Rattle.elf_file.specs.Segment.{has_bad_load, is_too_large, has_bad_order};
ghost use Rattle.elf_file.specs.Header.{header_count};
ghost use Rattle.elf_file.specs.Refusal.{header_refusal, segment_refusal};

use crate::ObjectRefusal;
use crate::first_refusal::test_segments;
use crate::headers::Headers;
use crate::indexed_segments::IndexedSegments;
use crate::load_segments::LoadSegments;
use crate::segment::ProgramHeader;
use std::marker::Model;

/// A file that the tests E1 to E14 accept. Therefore each of its PT_LOADs begins at or above the
/// end of the one before it. In contracts, the value is the file's bytes.
#[derive(Drop)]
pub struct Segments<'a> {
    headers: Headers<'a>,
}

impl<'a> Model for Segments<'a> {
    ghost use Rattle.std.specs.Prelude.{List, ℕ};
    ghost use Rattle.elf_file.specs.inside.Index.{HasSegments};

    ghost Value = { List ℕ };

    ghost view = { λ s. s.headers };

    ghost invariant = { λ s. HasSegments s.headers };
}

impl<'a> Segments<'a> {
    /// Tests the program headers: E11 to E14.
    pub(crate) fn read(headers: Headers<'a>) -> Result<Segments<'a>, ObjectRefusal>
        ensures { MatchResult result
            (λ segments. (segment_refusal headers.entry ≡ None) × (segments ≡ headers.entry))
            (λ refusal. segment_refusal headers.entry ≡ Some refusal) }
    {
        test_segments(&headers)?;
        Ok(Segments { headers })
    }

    /// Makes the view of a file that the tests E1 to E14 accept. Doesn't repeat these tests.
    pub(crate) fn of_accepted(file: &'a [u8]) -> Segments<'a>
        requires headers { header_refusal file.now ≡ None }
        requires segments { segment_refusal file.now ≡ None }
        ensures { result ≡ file.now }
    {
        Segments {
            headers: Headers::of_accepted(file),
        }
    }

    /// Returns another view of the same file.
    pub fn again(&self) -> Segments<'a>
        ensures { result ≡ self.now }
    {
        Segments {
            headers: self.headers.again(),
        }
    }

    /// The headers. The contract also states the properties of the PT_LOADs that E12 to E14 have
    /// tested.
    pub fn headers(&self) -> &Headers<'a>
        ensures same { result.now ≡ self.now }
        ensures loads { has_bad_load self.now ≡ false }
        ensures large { is_too_large self.now ≡ false }
        ensures order { has_bad_order self.now ≡ false }
    {
        &self.headers
    }

    /// The number of PT_LOADs. Makes one pass over the program headers.
    pub fn count(&self) -> usize
        ensures { result ≡ length (loads self.now) }
    {
        (0..self.header_count())
            .filter(|i| self.headers.is_load(*i))
            .count()
    }

    /// Returns PT_LOAD number `i`. Makes a pass over the program headers up to this PT_LOAD.
    pub fn nth(&self, i: usize) -> ProgramHeader
        requires { i < length (loads self.now) }
        ensures { slice_get (loads self.now) i ≡ Some result }
    {
        let mut left = i;
        for segment in self.iter() {
            if left == 0 {
                return segment;
            }
            left -= 1;
        }
        unreachable!()
    }

    /// Returns the PT_LOADs, in the order of the program headers. Reading all PT_LOADs makes one
    /// pass over the program headers.
    pub fn iter(&self) -> LoadSegments<'a>
        ensures { result ≡ loads self.now }
    {
        LoadSegments::new(&self.headers)
    }

    /// The number of program headers.
    pub(crate) fn header_count(&self) -> usize
        ensures ok { result ≡ header_count self.now }
        ensures most { result < 65536 }
    {
        self.headers.count()
    }

    /// Returns program header number `i`.
    pub(crate) fn header(&self, i: usize) -> ProgramHeader
        requires { i < header_count self.now }
        ensures { result ≡ program_header self.now i }
    {
        self.headers.nth(i)
    }

    /// Returns the segments with an index that finds the PT_LOAD at an address. Makes one pass over
    /// the program headers.
    pub fn indexed(&self) -> IndexedSegments<'a>
        ensures { result ≡ self.now }
    {
        IndexedSegments::new(self.headers.again())
    }
}
