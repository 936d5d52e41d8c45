// Reads strings, and the names of needed libraries (gABI chapter 4, string table).

ghost use Rattle.std.specs.Prelude.{◌≡◌, length, map, take_while, not, ◌==◌};
ghost use Rattle.std.specs.Iterator.{YieldsFirstRef, item_count};
ghost use Rattle.elf_dynamic.specs.Strings.{string_at};

use elf_file::NeededOffsets;
use memchr::memchr;
use std::marker::Model;

/// Returns the number of bytes before the first zero byte, or of all bytes if there is none.
#[tactic(auto, using(crate::proofs::StringEnds::zero_found))]
fn string_length(bytes: &[u8]) -> usize
    ensures { result ≡ length (take_while (λ b. not (b == 0)) bytes.now) }
{
    memchr(0, bytes).unwrap_or(bytes.len())
}

/// Returns the string at offset `offset` of `table`: the bytes up to the next zero byte. The time
/// is proportional to the string's length.
#[tactic(auto, using(crate::proofs::StringEnds::ends), unfolding(crate::specs::Strings::string_at))]
pub(crate) fn string_at(table: &[u8], offset: usize) -> &[u8]
    ensures { result.now ≡ string_at table.now offset }
{
    let rest = &table[offset.min(table.len())..];
    &rest[..string_length(rest)]
}

/// An iterator over the names of the needed libraries, in the order of the `DT_NEEDED` entries. In
/// contracts, the value is the list of the names that haven't been read yet.
#[derive(Drop)]
pub struct NeededNames<'a> {
    strings: &'a [u8],
    offsets: NeededOffsets<'a>,
}

impl<'a> Model for NeededNames<'a> {
    ghost use Rattle.std.specs.Prelude.{List, ℕ, map};
    ghost use Rattle.elf_dynamic.specs.Strings.{string_at};

    ghost Value = { List (List ℕ) };

    ghost view = { λ s. map (string_at s.strings.now) s.offsets };
}

impl<'a> NeededNames<'a> {
    /// Returns the names at the offsets `offsets` of the string table `strings`.
    pub(crate) fn new(strings: &'a [u8], offsets: NeededOffsets<'a>) -> NeededNames<'a>
        ensures { result ≡ map (string_at strings.now) offsets.entry }
    {
        NeededNames { strings, offsets }
    }
}

impl<'a> Iterator for NeededNames<'a> {
    type Item = &'a [u8];

    ghost next_gives = { YieldsFirstRef (λ names. names) };

    ghost remaining = { item_count (λ names. names) };

    fn next(&mut self) -> Option<&'a [u8]> {
        match self.offsets.next() {
            Some(offset) => Some(string_at(self.strings, offset as usize)),
            None => None,
        }
    }
}
