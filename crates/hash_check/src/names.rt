// Reads the names of symbols.

ghost use Rattle.std.specs.Prelude.{◌≡◌, map, IfOk, IfSome};
ghost use Rattle.std.specs.List.{All};
ghost use Rattle.elf_dynamic.specs.Strings.{name_of};
ghost use Rattle.hash_check.specs.inside.Names.{IsSymbol, IsLengthOf, offset_of};

use crate::name::Name;
use crate::name_budget::NameBudget;
use crate::strings::stretch_of;
use elf_dynamic::Object;
use std::alloc::{AllocError, Global};

/// Returns the offset of the name of symbol number `i` in the string table, or 0 if there is no
/// such symbol.
pub(crate) fn offset_of(object: &Object<'_>, i: u32) -> u32
    ensures { result ≡ offset_of object.now i }
{
    if i < object.symbol_count() {
        object.symbol(i).name
    } else {
        0
    }
}

/// Returns the name of symbol number `i`, or the empty name if there is no such symbol.
pub(crate) fn name_at<'a>(object: &Object<'a>, i: u32) -> &'a [u8]
    ensures { result.now ≡ name_of object.now i }
{
    if i < object.symbol_count() {
        object.name_of(i)
    } else {
        &[]
    }
}

/// Returns the name of symbol number `symbol`, which has `length` bytes. Doesn't search for the
/// name's end.
fn text_of<'a>(object: &Object<'a>, symbol: u32, length: usize) -> &'a [u8]
    requires symbol { IsSymbol object.now symbol }
    requires length { IsLengthOf object.now symbol length }
    ensures { result.now ≡ name_of object.now symbol }
{
    let table = object.string_table();
    let from = (offset_of(object, symbol) as usize).min(table.len());
    let rest = &table[from..];
    &rest[..length]
}

/// Returns the names of symbols. If the symbols are sorted by the places of their names, reads each
/// byte only once, because a name that begins within the name before it ends at the same place.
pub(crate) fn names_of<'a>(
    alloc: Global,
    object: &Object<'a>,
    symbols: &[u32],
) -> Result<Vec<Name<'a>>, AllocError>
    requires { All (IsSymbol object.now) symbols.now }
    ensures { IfOk result (λ names. names.items ≡ map (name_of object.now) symbols.now) }
{
    let mut names = Vec::with_capacity(alloc, symbols.len())?;
    let mut last = None;
    for number in symbols {
        let symbol = *number;
        let stretch = stretch_of(object, last, symbol);
        let skipped = (offset_of(object, symbol) - stretch.from) as usize;
        let length = stretch.length - skipped;
        names.push_reserved(Name::new(text_of(object, symbol, length)));
        last = Some(stretch);
    }
    Ok(names)
}

/// Returns the names of symbols, which may be in any order, and reads each name to its end. Returns
/// `None` if the names have too many bytes in total, because then many names are tails of other
/// names.
pub(crate) fn short_names<'a>(
    alloc: Global,
    object: &Object<'a>,
    symbols: &[u32],
) -> Result<Option<Vec<Name<'a>>>, AllocError>
    requires { All (IsSymbol object.now) symbols.now }
    ensures { IfOk result (λ found. IfSome found (λ names.
        names.items ≡ map (name_of object.now) symbols.now)) }
{
    let mut budget = NameBudget::new(object.string_table().len());
    let mut names = Vec::with_capacity(alloc, symbols.len())?;
    for symbol in symbols {
        let name = object.name_of(*symbol);
        if !budget.take(name.len()) {
            return Ok(None);
        }
        names.push_reserved(Name::new(name));
    }
    Ok(Some(names))
}
