// A table of the tags that are read: for each tag, the number of its entries, and the value of the
// first one.

ghost use Rattle.std.specs.Prelude.{◌≡◌, ◌<◌, ◌^◌, ℕ, [], true, false, Some};
ghost use Rattle.std.specs.Prelude.{IfSome, MatchOption, slice_index_or};
ghost use Rattle.elf_file.specs.Dynamic.{is_ended};
ghost use Rattle.elf_file.specs.Tag.{number_of};
ghost use Rattle.elf_file.specs.inside.Tags.{place_of, slot_more, slot_and, IsTable, IsTagsOf};
ghost use Rattle.elf_file.specs.declared.tag_table.Slot.{Slot};

use crate::entry::{DYNAMIC_ENTRY_SIZE, Entry, nth_entry};
use crate::tag::{
    DT_FLAGS, DT_HASH, DT_JMPREL, DT_NEEDED, DT_NULL, DT_PLTREL, DT_PLTRELSZ, DT_REL, DT_RELA,
    DT_RELAENT, DT_RELASZ, DT_RELR, DT_SONAME, DT_STRSZ, DT_STRTAB, DT_SYMBOLIC, DT_SYMENT,
    DT_SYMTAB, DT_VERDEF, DT_VERNEED, DT_VERSYM, Tag,
};

/// The number of places in the table: one for each tag that is read.
const PLACES: usize = 20;

/// A tag's slot in the table: the number of entries with the tag, and the value of the first of
/// them, or 0 if there is none.
#[derive(Clone, Copy)]
pub(crate) struct Slot {
    pub(crate) count: usize,
    pub(crate) value: u64,
}

/// The slot of an absent tag.
const NO_SLOT: Slot = Slot { count: 0, value: 0 };

/// The slots of all tags that have a place.
#[derive(Clone, Copy)]
pub(crate) struct TagTable {
    pub(crate) slots: [Slot; PLACES],
}

/// Returns the place, in the table, of the tag with number `number`, if this tag has a place.
fn place_of(number: u64) -> Option<usize>
    ensures ok { result ≡ place_of number }
    ensures within { IfSome result (λ k. k < PLACES) }
{
    match number {
        DT_NEEDED => Some(0),
        DT_PLTRELSZ => Some(1),
        DT_HASH => Some(2),
        DT_STRTAB => Some(3),
        DT_SYMTAB => Some(4),
        DT_RELA => Some(5),
        DT_RELASZ => Some(6),
        DT_RELAENT => Some(7),
        DT_STRSZ => Some(8),
        DT_SYMENT => Some(9),
        DT_SONAME => Some(10),
        DT_SYMBOLIC => Some(11),
        DT_REL => Some(12),
        DT_PLTREL => Some(13),
        DT_JMPREL => Some(14),
        DT_FLAGS => Some(15),
        DT_RELR => Some(16),
        DT_VERSYM => Some(17),
        DT_VERDEF => Some(18),
        DT_VERNEED => Some(19),
        _ => None,
    }
}

/// Returns the place of a tag in the table.
pub(crate) fn place(tag: Tag) -> usize
    ensures ok { place_of (number_of tag) ≡ Some result }
    ensures within { result < PLACES }
{
    tag as usize
}

impl Slot {
    /// Returns this slot with one more entry counted. `value` is the entry's value.
    fn and(self, value: u64) -> Slot
        requires { self.count < 2 ^ 63 }
        ensures { result ≡ slot_more value self }
    {
        Slot {
            count: self.count + 1,
            value: if self.count == 0 { value } else { self.value },
        }
    }
}

impl TagTable {
    /// Returns the table for a section without entries.
    fn empty() -> TagTable
        ensures { IsTable [] result.slots }
    {
        TagTable {
            slots: [NO_SLOT; PLACES],
        }
    }

    /// Counts one more entry in the slot of its tag, if the tag has a place.
    fn add(&mut self, entry: Entry)
        requires { (n k : ℕ) (d : Slot) → place_of n ≡ Some k
            → (slice_index_or self.old.slots k d).count < 2 ^ 63 }
        ensures { (n k : ℕ) (d : Slot) → place_of n ≡ Some k
            → slice_index_or self.new.slots k d
            ≡ slot_and n entry (slice_index_or self.old.slots k d) }
    {
        if let Some(k) = place_of(entry.tag) {
            self.slots[k] = self.slots[k].and(entry.value);
        }
    }
}

/// The number of entries of a section before its first DT_NULL, and the table of these entries.
#[derive(Clone, Copy)]
pub(crate) struct Tags {
    pub(crate) count: usize,
    pub(crate) table: TagTable,
}

/// Reads the entries of a section up to its first DT_NULL. Returns `None` if the section has no
/// DT_NULL. Makes one pass.
pub(crate) fn read_tags(section: &[u8]) -> Option<Tags>
    ensures { MatchOption result (is_ended section.now ≡ false)
        (λ tags. (is_ended section.now ≡ true) × IsTagsOf section.now tags) }
{
    let mut table = TagTable::empty();
    for i in 0..section.len() / DYNAMIC_ENTRY_SIZE {
        let entry = nth_entry(section, i);
        if entry.tag == DT_NULL {
            return Some(Tags { count: i, table });
        }
        table.add(entry);
    }
    None
}
