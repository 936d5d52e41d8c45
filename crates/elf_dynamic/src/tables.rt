// A file whose tables have been tested.

ghost use Rattle.std.specs.Prelude.{◌≡◌, None, Some, MatchResult, nat_le};
ghost use Rattle.std.specs.List.{list_any};
ghost use Rattle.elf_file.specs.Dynamic.{needed_offsets, tag_value};
ghost use Rattle.elf_dynamic.specs.Strings.{is_unended, has_bad_needed, has_bad_string};
ghost use Rattle.elf_dynamic.specs.Strings.{has_bad_soname_offset, has_bad_symbol_name};
ghost use Rattle.elf_dynamic.specs.Refusal.{table_refusal};
ghost use Rattle.elf_dynamic.specs.inside.Tables.{HasParts};

use crate::parts::Parts;
use crate::symbol::has_name_from;
use elf_file::{Dynamic, NeededOffsets, ObjectRefusal, Segments};
use std::marker::Model;

/// Returns whether one of `offsets` is `limit` or more.
fn has_offset_from(mut offsets: NeededOffsets<'_>, limit: u64) -> bool
    ensures { result ≡ list_any (nat_le limit) offsets.entry }
{
    offsets.any(|offset| offset >= limit)
}

/// The tables of a file that the tests E1 to E22 accept. A value that `read` returned has also
/// passed E23. In contracts, the value is the file's bytes.
#[derive(Drop)]
pub(crate) struct Tables<'a> {
    segments: Segments<'a>,
    needed: NeededOffsets<'a>,
    parts: Parts<'a>,
}

impl<'a> Model for Tables<'a> {
    ghost use Rattle.std.specs.Prelude.{List, ℕ};
    ghost use Rattle.elf_dynamic.specs.inside.Tables.{HasTables};

    ghost Value = { List ℕ };

    ghost view = { λ t. t.segments };

    ghost invariant = { λ t. HasTables t.segments t.needed t.parts };
}

impl<'a> Tables<'a> {
    /// Makes the view of a file from its tables `parts`.
    pub(crate) fn new(dynamic: &Dynamic<'a>, parts: Parts<'a>) -> Tables<'a>
        requires { HasParts dynamic.now parts }
        ensures { result ≡ dynamic.now }
    {
        Tables {
            segments: dynamic.segments().again(),
            needed: dynamic.needed_offsets(),
            parts,
        }
    }

    /// Finds the tables (E22) and tests the strings (E23).
    #[tactic(auto, unfolding(crate::specs::Refusal::table_refusal))]
    pub(crate) fn read(dynamic: &Dynamic<'a>) -> Result<Tables<'a>, ObjectRefusal>
        ensures { MatchResult result
            (λ tables. (table_refusal dynamic.now ≡ None) × (tables ≡ dynamic.now))
            (λ refusal. table_refusal dynamic.now ≡ Some refusal) }
    {
        let Some(parts) = Parts::find(dynamic) else {
            return Err(ObjectRefusal::BadRange);
        };
        let tables = Tables::new(dynamic, parts);
        if tables.has_bad_string() {
            return Err(ObjectRefusal::BadString);
        }
        Ok(tables)
    }

    /// The offsets of the needed libraries' names.
    pub(crate) fn needed_offsets(&self) -> NeededOffsets<'a>
        ensures { result ≡ needed_offsets self.now }
    {
        self.needed.again()
    }

    /// The segments.
    pub(crate) fn segments(&self) -> &Segments<'a>
        ensures { result.now ≡ self.now }
    {
        &self.segments
    }

    /// The file.
    pub(crate) fn file(&self) -> &'a [u8]
        ensures { result.now ≡ self.now }
    {
        self.segments.headers().file()
    }

    /// The tables of the file.
    pub(crate) fn parts(&self) -> Parts<'a>
        ensures { HasParts self.now result }
    {
        self.parts
    }

    /// The size of the string table, in bytes.
    fn limit(&self) -> u64
        ensures { result ≡ tag_value self.now 10 }
    {
        self.parts().strings.len() as u64
    }

    /// Returns whether the string table is empty, or its last byte isn't zero.
    fn is_unended(&self) -> bool
        ensures { result ≡ is_unended self.now }
    {
        let strings = self.parts().strings;
        strings.is_empty() || strings[strings.len() - 1] != 0
    }

    /// Returns whether a needed library's name isn't in the string table.
    #[tactic(auto, unfolding(crate::specs::Strings::has_bad_needed))]
    fn has_bad_needed(&self) -> bool
        ensures { result ≡ has_bad_needed self.now }
    {
        has_offset_from(self.needed_offsets(), self.limit())
    }

    /// Returns whether the object's own name isn't in the string table.
    fn has_bad_soname_offset(&self) -> bool
        ensures { result ≡ has_bad_soname_offset self.now }
    {
        match self.parts().soname {
            Some(offset) => offset >= self.limit(),
            None => false,
        }
    }

    /// Returns whether a symbol's name isn't in the string table.
    fn has_bad_symbol_name(&self) -> bool
        ensures { result ≡ has_bad_symbol_name self.now }
    {
        has_name_from(self.parts().symbols, self.limit())
    }

    fn has_bad_string(&self) -> bool
        ensures { result ≡ has_bad_string self.now }
    {
        self.is_unended()
            || self.has_bad_needed()
            || self.has_bad_soname_offset()
            || self.has_bad_symbol_name()
    }
}
