// The entries that name needed libraries (gABI chapter 5, `DT_NEEDED`).

ghost use Rattle.std.specs.Prelude.{◌≡◌, ◌≤◌, ◌<◌, ◌/◌, ℕ, length, true, false};
ghost use Rattle.std.specs.Iterator.{YieldsFirst, item_count};
ghost use Rattle.elf_file.specs.inside.Needed.{is_needed, values_from};

use crate::entry::nth_entry;
use crate::tag::DT_NEEDED;
use std::marker::Model;

/// An iterator over the offsets of the needed libraries' names, in the order of their entries. In
/// contracts, the value is the list of the offsets that haven't been read yet.
#[derive(Drop)]
pub struct NeededOffsets<'a> {
    section: &'a [u8],
    count: usize,
    next: usize,
}

impl<'a> Model for NeededOffsets<'a> {
    ghost use Rattle.std.specs.Prelude.{List, ℕ, ◌≤◌, ◌/◌, length};
    ghost use Rattle.elf_file.specs.inside.Needed.{values_from};

    ghost Value = { List ℕ };

    ghost view = { λ s. values_from s.section.now s.count s.next };

    ghost invariant = { λ s. (s.next ≤ s.count) × (s.count ≤ length s.section.now / 16) };
}

/// Returns the number of the first DT_NEEDED at or after entry number `from`, among the first
/// `count` entries. If there is none, returns `count`.
fn next_needed(bytes: &[u8], count: usize, from: usize) -> usize
    requires from { from ≤ count }
    requires count { count ≤ length bytes.now / 16 }
    ensures within { result ≤ count }
    ensures from { from ≤ result }
    ensures none { (j : ℕ) → from ≤ j → j < result → is_needed bytes.now j ≡ false }
    ensures here { result < count → is_needed bytes.now result ≡ true }
{
    for i in from..count {
        if nth_entry(bytes, i).tag == DT_NEEDED {
            return i;
        }
    }
    count
}

impl<'a> NeededOffsets<'a> {
    /// Returns the offsets that the DT_NEEDED entries have, among the first `count` entries of
    /// `section`.
    pub(crate) fn new(section: &'a [u8], count: usize) -> NeededOffsets<'a>
        requires { count ≤ length section.now / 16 }
        ensures { result ≡ values_from section.now count 0 }
    {
        NeededOffsets {
            section,
            count,
            next: 0,
        }
    }

    /// Returns another view of the offsets that haven't been read yet.
    pub fn again(&self) -> NeededOffsets<'a>
        ensures { result ≡ self.now }
    {
        NeededOffsets {
            section: self.section,
            count: self.count,
            next: self.next,
        }
    }
}

impl<'a> Iterator for NeededOffsets<'a> {
    type Item = u64;

    ghost next_gives = { YieldsFirst (λ os. os) };

    ghost remaining = { item_count (λ os. os) };

    fn next(&mut self) -> Option<u64> {
        let at = next_needed(self.section, self.count, self.next);
        if at == self.count {
            self.next = at;
            return None;
        }
        self.next = at + 1;
        Some(nth_entry(self.section, at).value)
    }
}
