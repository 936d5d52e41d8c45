// Finds the tables of a file.

ghost use Rattle.std.specs.Prelude.{◌≡◌, ◌*◌, length, true, false, None, Some, MatchOption};
ghost use Rattle.elf_file.specs.Tag.{number_of};
ghost use Rattle.elf_file.specs.Dynamic.{tag_value};
ghost use Rattle.elf_dynamic.specs.HashTable.{chain_count};
ghost use Rattle.elf_dynamic.specs.Strings.{string_bytes};
ghost use Rattle.elf_dynamic.specs.Symbol.{symbol_bytes};
ghost use Rattle.elf_dynamic.specs.Relocation.{table_bytes};
ghost use Rattle.elf_dynamic.specs.Table.{has_bad_range};
ghost use Rattle.elf_dynamic.specs.inside.Tables.{HasParts, soname_offset};

use crate::hash_table::HashTable;
use elf_file::{Dynamic, SYMBOL_SIZE, Tag};

/// The tables of a file, as parts of its bytes, with the number of needed libraries, the offset of
/// the object's own name in the string table (if the object has a name), and whether the object is
/// symbolic.
#[derive(Clone, Copy)]
pub(crate) struct Parts<'a> {
    pub(crate) strings: &'a [u8],
    pub(crate) hash: HashTable<'a>,
    pub(crate) symbols: &'a [u8],
    pub(crate) rela: &'a [u8],
    pub(crate) jmprel: &'a [u8],
    pub(crate) needed_count: usize,
    pub(crate) soname: Option<u64>,
    pub(crate) symbolic: bool,
}

/// Returns the string table, if it can be read.
#[tactic(auto, unfolding(crate::specs::Strings::string_bytes))]
fn string_table<'a>(dynamic: &Dynamic<'a>) -> Option<&'a [u8]>
    ensures { MatchOption result (string_bytes dynamic.now ≡ None)
        (λ bytes. (string_bytes dynamic.now ≡ Some bytes.now)
        × (length bytes.now ≡ tag_value dynamic.now 10)) }
{
    dynamic.segments().bytes_at(
        dynamic.tag_value(Tag::StrTab),
        dynamic.tag_value(Tag::StrSize),
    )
}

/// Returns the symbol table, which has `count` symbols, if the table can be read.
#[tactic(auto, unfolding(crate::specs::Symbol::symbol_bytes))]
fn symbol_table<'a>(dynamic: &Dynamic<'a>, count: u32) -> Option<&'a [u8]>
    requires { count ≡ chain_count dynamic.now }
    ensures { MatchOption result (symbol_bytes dynamic.now ≡ None)
        (λ bytes. (symbol_bytes dynamic.now ≡ Some bytes.now)
        × (length bytes.now ≡ 24 * count)) }
{
    dynamic.segments().bytes_at(
        dynamic.tag_value(Tag::SymTab),
        SYMBOL_SIZE * u64::from(count),
    )
}

/// Returns the table of relocations, if it can be read. The tag `place` has the table's address,
/// and the tag `size` has its size. Returns no bytes if the tag `place` is absent.
fn table_bytes<'a>(dynamic: &Dynamic<'a>, place: Tag, size: Tag) -> Option<&'a [u8]>
    ensures { MatchOption result (table_bytes dynamic.now (number_of place) (number_of size) ≡ None)
        (λ bytes. table_bytes dynamic.now (number_of place) (number_of size) ≡ Some bytes.now) }
{
    if !dynamic.is_present(place) {
        return Some(&[]);
    }
    dynamic
        .segments()
        .bytes_at(dynamic.tag_value(place), dynamic.tag_value(size))
}

/// Returns the offset of the object's own name in the string table, if it has a name.
fn soname_offset(dynamic: &Dynamic<'_>) -> Option<u64>
    ensures { result ≡ soname_offset dynamic.now }
{
    if dynamic.is_present(Tag::SoName) {
        Some(dynamic.tag_value(Tag::SoName))
    } else {
        None
    }
}

impl<'a> Parts<'a> {
    /// Returns the tables of a file, or `None` if one of them can't be read (E22).
    pub(crate) fn find(dynamic: &Dynamic<'a>) -> Option<Parts<'a>>
        ensures { MatchOption result (has_bad_range dynamic.now ≡ true)
            (λ parts. (has_bad_range dynamic.now ≡ false) × HasParts dynamic.now parts) }
    {
        let Some(strings) = string_table(dynamic) else {
            return None;
        };
        let Some(hash) = HashTable::find(dynamic) else {
            return None;
        };
        let Some(symbols) = symbol_table(dynamic, hash.chain_count) else {
            return None;
        };
        let Some(rela) = table_bytes(dynamic, Tag::Rela, Tag::RelaSize) else {
            return None;
        };
        let Some(jmprel) = table_bytes(dynamic, Tag::JmpRel, Tag::PltRelSize) else {
            return None;
        };
        Some(Parts {
            strings,
            hash,
            symbols,
            rela,
            jmprel,
            needed_count: dynamic.needed_count(),
            soname: soname_offset(dynamic),
            symbolic: dynamic.is_symbolic(),
        })
    }
}
