// The dynamic section and the tests of its entries (gABI chapter 5).

ghost use Rattle.std.specs.Prelude.{◌≡◌, false, true, Some, None, MatchResult, MatchOption};
ghost use Rattle.std.specs.Prelude.{◌≤◌, ◌/◌, length, map, nat_lt};
ghost use Rattle.std.specs.List.{list_any, range_with_len};
ghost use Rattle.elf_file.specs.Dynamic.{has_dynamic, dynamic_section, has_bad_dynamic};
ghost use Rattle.elf_file.specs.Dynamic.{entry, entries, tag_count, is_present, tag_value, is_part};
ghost use Rattle.elf_file.specs.Dynamic.{has_duplicate_tag, has_symbol_versions};
ghost use Rattle.elf_file.specs.Dynamic.{is_flagged_symbolic, is_symbolic, has_unsupported_tag};
ghost use Rattle.elf_file.specs.Dynamic.{has_no_hash_table, lacks_symbol_tag, has_missing_tag};
ghost use Rattle.elf_file.specs.Dynamic.{has_bad_entry_size, needed_offsets};
ghost use Rattle.elf_file.specs.Tag.{number_of};
ghost use Rattle.elf_file.specs.inside.Tags.{slot_of};
ghost use Rattle.elf_file.specs.Refusal.{tag_refusal, file_refusal};

use crate::ObjectRefusal;
use crate::address::part;
use crate::headers::Headers;
use crate::needed::NeededOffsets;
use crate::segments::Segments;
use crate::tag::{DF_SYMBOLIC, DT_RELA, RELOCATION_SIZE, SYMBOL_SIZE, Tag};
use crate::tag_table::{Slot, Tags, place, read_tags};
use std::marker::Model;

/// The tags that may be present only once.
const SINGLE_TAGS: [Tag; 19] = [
    Tag::PltRelSize,
    Tag::Hash,
    Tag::StrTab,
    Tag::SymTab,
    Tag::Rela,
    Tag::RelaSize,
    Tag::RelaEntry,
    Tag::StrSize,
    Tag::SymEntry,
    Tag::SoName,
    Tag::Symbolic,
    Tag::Rel,
    Tag::PltRel,
    Tag::JmpRel,
    Tag::Flags,
    Tag::Relr,
    Tag::VerSym,
    Tag::VerDef,
    Tag::VerNeed,
];

impl<'a> Headers<'a> {
    /// Returns the bytes of the dynamic section. Returns `None` unless exactly one PT_DYNAMIC is
    /// present and its bytes are in the file.
    #[tactic(auto, unfolding(crate::specs::Dynamic::dynamic_section))]
    fn dynamic_section(&self) -> Option<&'a [u8]>
        ensures { MatchOption result (has_dynamic self.now ≡ false)
            (λ section. (has_dynamic self.now ≡ true) × (section.now ≡ dynamic_section self.now)) }
    {
        if self.dynamic_count() != 1 {
            return None;
        }
        let Some(h) = self.find_dynamic() else {
            return None;
        };
        let file = self.file();
        if u128::from(h.offset) + u128::from(h.file_size) > file.len() as u128 {
            return None;
        }
        Some(part(file, h.offset as usize, h.file_size as usize))
    }
}

/// A file that passes the tests E1 to E15: its dynamic section is in the file and has an end. A
/// value that `read` or `of_accepted` returned has also passed the tests E16 to E21. In contracts,
/// the value is the file's bytes.
#[derive(Drop)]
pub struct Dynamic<'a> {
    segments: Segments<'a>,
    section: &'a [u8],
    tags: Tags,
}

impl<'a> Model for Dynamic<'a> {
    ghost use Rattle.std.specs.Prelude.{List, ℕ};
    ghost use Rattle.elf_file.specs.inside.Tags.{HasTags};

    ghost Value = { List ℕ };

    ghost view = { λ d. d.segments };

    ghost invariant = { λ d. HasTags d.segments d.section.now d.tags };
}

impl<'a> Dynamic<'a> {
    /// Reads the headers, segments and tags of a file, or returns the refusal of the first of the
    /// tests E1 to E21 that applies. Makes a few passes over the program headers, and one over the
    /// dynamic section.
    #[tactic(auto, using(crate::proofs::Stages::stages))]
    pub fn read(file: &'a [u8]) -> Result<Dynamic<'a>, ObjectRefusal>
        ensures { MatchResult result
            (λ dynamic. (file_refusal file.now ≡ None) × (dynamic ≡ file.now))
            (λ refusal. file_refusal file.now ≡ Some refusal) }
    {
        let headers = Headers::read(file)?;
        let segments = Segments::read(headers)?;
        Dynamic::test(segments)
    }

    /// Makes the view of a file that the tests E1 to E21 accept. Doesn't repeat these tests. Makes
    /// two passes over the program headers, and one over the dynamic section.
    pub fn of_accepted(file: &'a [u8]) -> Dynamic<'a>
        requires { file_refusal file.now ≡ None }
        ensures { result ≡ file.now }
    {
        let segments = Segments::of_accepted(file);
        match Dynamic::find(segments) {
            Some(dynamic) => dynamic,
            None => unreachable!(),
        }
    }

    /// Finds and reads the dynamic section. Returns `None` if test E15 refuses the file.
    fn find(segments: Segments<'a>) -> Option<Dynamic<'a>>
        ensures { MatchOption result (has_bad_dynamic segments.entry ≡ true)
            (λ dynamic. (has_bad_dynamic segments.entry ≡ false) × (dynamic ≡ segments.entry)) }
    {
        let Some(section) = segments.headers().dynamic_section() else {
            return None;
        };
        match read_tags(section) {
            Some(tags) => Some(Dynamic {
                segments,
                section,
                tags,
            }),
            None => None,
        }
    }

    /// Tests the dynamic section and its tags: E15 to E21.
    #[tactic(auto, unfolding(crate::specs::Refusal::tag_refusal))]
    fn test(segments: Segments<'a>) -> Result<Dynamic<'a>, ObjectRefusal>
        ensures { MatchResult result
            (λ dynamic. (tag_refusal segments.entry ≡ None) × (dynamic ≡ segments.entry))
            (λ refusal. tag_refusal segments.entry ≡ Some refusal) }
    {
        let Some(dynamic) = Dynamic::find(segments) else {
            return Err(ObjectRefusal::BadDynamic);
        };
        if dynamic.has_duplicate_tag() {
            return Err(ObjectRefusal::DuplicateTag);
        }
        if dynamic.has_symbol_versions() {
            return Err(ObjectRefusal::SymbolVersions);
        }
        if dynamic.has_unsupported_tag() {
            return Err(ObjectRefusal::UnsupportedTag);
        }
        if dynamic.has_no_hash_table() {
            return Err(ObjectRefusal::NoHashTable);
        }
        if dynamic.has_missing_tag() {
            return Err(ObjectRefusal::MissingTag);
        }
        if dynamic.has_bad_entry_size() {
            return Err(ObjectRefusal::BadEntrySize);
        }
        Ok(dynamic)
    }

    /// The segments.
    pub fn segments(&self) -> &Segments<'a>
        ensures { result.now ≡ self.now }
    {
        &self.segments
    }

    /// Returns the slot of `tag` in the table of tags.
    #[tactic(auto, unfolding(crate::specs::Dynamic::entries))]
    fn slot(&self, tag: Tag) -> Slot
        ensures { result ≡ slot_of (entries self.now) (number_of tag) }
    {
        self.tags.table.slots[place(tag)]
    }

    /// Returns the number of entries that have the tag `tag`.
    #[tactic(auto, unfolding(crate::specs::Dynamic::tag_count))]
    pub fn tag_count(&self, tag: Tag) -> usize
        ensures { result ≡ tag_count self.now (number_of tag) }
    {
        self.slot(tag).count
    }

    /// Returns whether an entry has the tag `tag`.
    #[tactic(auto, using(crate::proofs::TagTables::present))]
    pub fn is_present(&self, tag: Tag) -> bool
        ensures { result ≡ is_present self.now (number_of tag) }
    {
        self.tag_count(tag) > 0
    }

    /// Returns the value of the first entry with the tag `tag`, or 0 if there is no such entry.
    #[tactic(auto, unfolding(crate::specs::Dynamic::tag_value, crate::specs::Dynamic::find_entry))]
    pub fn tag_value(&self, tag: Tag) -> u64
        ensures { result ≡ tag_value self.now (number_of tag) }
    {
        self.slot(tag).value
    }

    /// Returns whether one of `tags` is present more than once.
    fn has_one_twice(&self, tags: &[Tag]) -> bool
        ensures { result
            ≡ list_any (λ tag. nat_lt 1 (tag_count self.now (number_of tag))) tags.now }
    {
        tags.iter().any(|tag| self.tag_count(*tag) > 1)
    }

    #[tactic(auto, unfolding(crate::specs::Dynamic::has_duplicate_tag))]
    fn has_duplicate_tag(&self) -> bool
        ensures { result ≡ has_duplicate_tag self.now }
    {
        self.has_one_twice(&SINGLE_TAGS)
    }

    fn has_symbol_versions(&self) -> bool
        ensures { result ≡ has_symbol_versions self.now }
    {
        self.is_present(Tag::VerSym)
            || self.is_present(Tag::VerDef)
            || self.is_present(Tag::VerNeed)
    }

    /// Returns whether `DT_FLAGS` has the bit `DF_SYMBOLIC`. If it has, a lookup of a symbol to
    /// which the object refers begins with the object itself.
    fn is_flagged_symbolic(&self) -> bool
        ensures { result ≡ is_flagged_symbolic self.now }
    {
        self.is_present(Tag::Flags) && self.tag_value(Tag::Flags) & DF_SYMBOLIC != 0
    }

    /// Returns whether a lookup of a symbol to which the object refers begins with the object
    /// itself (gABI chapter 5, `DT_SYMBOLIC` and `DF_SYMBOLIC`). Takes constant time.
    #[tactic(auto, unfolding(crate::specs::Dynamic::is_symbolic))]
    pub fn is_symbolic(&self) -> bool
        ensures { result ≡ is_symbolic self.now }
    {
        self.is_present(Tag::Symbolic) || self.is_flagged_symbolic()
    }

    fn has_unsupported_tag(&self) -> bool
        ensures { result ≡ has_unsupported_tag self.now }
    {
        self.is_present(Tag::Rel) || self.is_present(Tag::Relr)
    }

    fn has_no_hash_table(&self) -> bool
        ensures { result ≡ has_no_hash_table self.now }
    {
        !self.is_present(Tag::Hash)
    }

    /// Returns whether a tag of the string table or of the symbol table is absent.
    fn lacks_symbol_tag(&self) -> bool
        ensures { result ≡ lacks_symbol_tag self.now }
    {
        !self.is_present(Tag::StrTab)
            || !self.is_present(Tag::SymTab)
            || !self.is_present(Tag::StrSize)
            || !self.is_present(Tag::SymEntry)
    }

    fn has_missing_tag(&self) -> bool
        ensures { result ≡ has_missing_tag self.now }
    {
        self.lacks_symbol_tag()
            || (self.is_present(Tag::Rela)
                && (!self.is_present(Tag::RelaSize) || !self.is_present(Tag::RelaEntry)))
            || (self.is_present(Tag::JmpRel)
                && (!self.is_present(Tag::PltRelSize) || !self.is_present(Tag::PltRel)))
    }

    /// Returns whether the value of the tag `tag` isn't a multiple of the size of a relocation.
    fn is_part(&self, tag: Tag) -> bool
        ensures { result ≡ is_part (tag_value self.now (number_of tag)) }
    {
        self.tag_value(tag) % RELOCATION_SIZE != 0
    }

    fn has_bad_entry_size(&self) -> bool
        ensures { result ≡ has_bad_entry_size self.now }
    {
        self.tag_value(Tag::SymEntry) != SYMBOL_SIZE
            || (self.is_present(Tag::Rela)
                && (self.tag_value(Tag::RelaEntry) != RELOCATION_SIZE
                    || self.is_part(Tag::RelaSize)))
            || (self.is_present(Tag::JmpRel)
                && (self.tag_value(Tag::PltRel) != DT_RELA || self.is_part(Tag::PltRelSize)))
    }

    /// The dynamic section.
    fn section(&self) -> &'a [u8]
        ensures { result.now ≡ dynamic_section self.now }
    {
        self.section
    }

    /// The number of entries before the first DT_NULL.
    fn entry_count(&self) -> usize
        ensures entries { entries self.now
            ≡ map (entry (dynamic_section self.now)) (range_with_len 0 result) }
        ensures within { result ≤ length (dynamic_section self.now) / 16 }
    {
        self.tags.count
    }

    /// The number of libraries that the object needs.
    pub fn needed_count(&self) -> usize
        ensures { result ≡ length (needed_offsets self.now) }
    {
        self.tag_count(Tag::Needed)
    }

    /// Returns the offsets, in the string table, of the needed libraries' names, in the order of
    /// their entries. Reading all offsets makes one pass over the dynamic section.
    pub fn needed_offsets(&self) -> NeededOffsets<'a>
        ensures { result ≡ needed_offsets self.now }
    {
        NeededOffsets::new(self.section(), self.entry_count())
    }
}
