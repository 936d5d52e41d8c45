// The PT_LOADs of a file, one after the other.

ghost use Rattle.std.specs.Prelude.{◌≡◌, ◌≤◌, ◌<◌, ℕ, true, false};
ghost use Rattle.std.specs.Iterator.{YieldsFirst, item_count};
ghost use Rattle.elf_file.specs.Header.{header_count};
ghost use Rattle.elf_file.specs.Segment.{is_load, loads, program_header};

use crate::headers::Headers;
use crate::segment::ProgramHeader;
use std::marker::Model;

/// An iterator over the PT_LOADs, in the order of the program headers. In contracts, the value is
/// the list of the PT_LOADs that haven't been read yet.
#[derive(Drop)]
pub struct LoadSegments<'a> {
    headers: Headers<'a>,
    next: usize,
}

impl<'a> Model for LoadSegments<'a> {
    ghost use Rattle.std.specs.Prelude.{List, ◌≤◌};
    ghost use Rattle.elf_file.specs.Header.{header_count};
    ghost use Rattle.elf_file.specs.inside.Index.{loads_from};
    ghost use Rattle.elf_file.specs.declared.segment.ProgramHeader.{ProgramHeader};

    ghost Value = { List ProgramHeader };

    ghost view = { λ s. loads_from s.headers s.next };

    ghost invariant = { λ s. s.next ≤ header_count s.headers };
}

impl Headers<'_> {
    /// Returns the number of the first PT_LOAD at or after program header number `from`, or the
    /// number of program headers if there is none.
    pub(crate) fn next_load(&self, from: usize) -> usize
        requires { from ≤ header_count self.now }
        ensures within { result ≤ header_count self.now }
        ensures from { from ≤ result }
        ensures none { (j : ℕ) → from ≤ j → j < result
            → is_load (program_header self.now j) ≡ false }
        ensures here { result < header_count self.now
            → is_load (program_header self.now result) ≡ true }
    {
        for i in from..self.count() {
            if self.is_load(i) {
                return i;
            }
        }
        self.count()
    }
}

impl<'a> LoadSegments<'a> {
    /// Returns all PT_LOADs of a file.
    pub(crate) fn new(headers: &Headers<'a>) -> LoadSegments<'a>
        ensures { result ≡ loads headers.now }
    {
        LoadSegments {
            headers: headers.again(),
            next: 0,
        }
    }
}

impl<'a> Iterator for LoadSegments<'a> {
    type Item = ProgramHeader;

    ghost next_gives = { YieldsFirst (λ hs. hs) };

    ghost remaining = { item_count (λ hs. hs) };

    fn next(&mut self) -> Option<ProgramHeader> {
        let at = self.headers.next_load(self.next);
        if at == self.headers.count() {
            self.next = at;
            return None;
        }
        self.next = at + 1;
        Some(self.headers.nth(at))
    }
}
