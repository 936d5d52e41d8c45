// Tests whether two exported symbols share a name.

ghost use Rattle.std.specs.Prelude.{◌≡◌, ◌≢◌, ◌≤◌, ◌↔◌, [], true, false, length, map};
ghost use Rattle.std.specs.Prelude.{IsTrue, IfOk, IfSome, OnErr, MatchOption};
ghost use Rattle.std.specs.List.{All};
ghost use Rattle.hash_check.specs.Export.{exported_symbols};
ghost use Rattle.hash_check.specs.Definition.{has_duplicate_definition};
ghost use Rattle.hash_check.specs.inside.Names.{IsSymbol, AllDiffer, AreExports, IsWhole};
ghost use Rattle.elf_dynamic.specs.Strings.{name_of};
ghost use Rattle.hash_check.specs.Numbers.{AreOwn, Fall};

use crate::endings::numbers_of_endings;
use crate::export::{exported_count, exported_symbols};
use crate::exports::Exports;
use crate::name::Name;
use crate::name_table::numbers_in_table;
use crate::names::{names_of, offset_of, short_names};
use crate::strings::endings_of;
use elf_dynamic::Object;
use std::alloc::{AllocError, Global};

/// Returns whether the number of each name is the name's position, counted from 1.
fn are_own(numbers: &[u32]) -> bool
    ensures { IsTrue result ↔ AreOwn numbers.now }
{
    for i in 0..numbers.len() {
        if numbers[i] as usize != i + 1 {
            return false;
        }
    }
    true
}

/// Returns the names of `symbols`, and whether all of these names differ, or `None` if a table of
/// the names can't decide this. The symbols may be in any order.
fn names_in_table<'a>(
    alloc: Global,
    object: &Object<'a>,
    symbols: &[u32],
) -> Result<Option<(Vec<Name<'a>>, bool)>, AllocError>
    requires { All (IsSymbol object.now) symbols.now }
    ensures { IfOk result (λ found. IfSome found (λ told.
        (told.0.items ≡ map (name_of object.now) symbols.now)
        × (IsTrue told.1 ↔ AllDiffer object.now symbols.now))) }
{
    let Some(names) = short_names(alloc, object, symbols)? else {
        return Ok(None);
    };
    match numbers_in_table(alloc, &names)? {
        Some(numbers) => Ok(Some((names, are_own(&numbers)))),
        None => Ok(None),
    }
}

/// Returns whether each name is shorter than the name before it. This is so if the names are
/// different tails of one string, sorted by their places.
fn lengths_fall(names: &[Name<'_>]) -> bool
    ensures { IsTrue result → Fall names.now }
{
    for i in 1..names.len() {
        let (before, name) = (&names[i - 1], &names[i]);
        if name.bytes().len() >= before.bytes().len() {
            return false;
        }
    }
    true
}

/// Returns whether the names of the symbols differ. To decide this, compares the strings whose
/// tails the names are. The symbols must be sorted by the places of their names.
fn differ_in_strings(
    alloc: Global,
    object: &Object<'_>,
    symbols: &[u32],
    names: &[Name<'_>],
) -> Result<bool, AllocError>
    requires symbols { All (IsSymbol object.now) symbols.now }
    requires names { names.now ≡ map (name_of object.now) symbols.now }
    ensures { IfOk result (λ differ. IsTrue differ ↔ AllDiffer object.now symbols.now) }
{
    if lengths_fall(names) {
        return Ok(true);
    }
    let endings = endings_of(alloc, object, symbols)?;
    let numbers = numbers_of_endings(alloc, names, endings)?;
    Ok(are_own(&numbers))
}

/// Returns an empty list of exports if the object exports fewer than two symbols, because then no
/// two symbols share a name. Otherwise returns `AllocError`.
fn few_exports<'a>(alloc: Global, object: &Object<'a>) -> Result<Option<Exports<'a>>, AllocError>
    ensures ok { IfOk result (λ found. MatchOption found
        (has_duplicate_definition object.now ≡ true)
        (λ exports. (has_duplicate_definition object.now ≡ false)
        × AreExports object.now exports.symbols.items exports.names.items
        × (exports.symbols.items ≢ [] → IsWhole object.now exports.symbols.items))) }
    ensures err { OnErr result (2 ≤ length (exported_symbols object.now)) }
{
    if exported_count(object) < 2 {
        Ok(Some(Exports::none(alloc, object)))
    } else {
        Err(AllocError)
    }
}

/// Returns the exported symbols, or `None` if two of them share a name. If the object exports fewer
/// than two symbols, the list is empty. Usually a table of the names decides whether two of the
/// names are equal. The table can't decide this if many names are tails of other names, or if the
/// file was made to crowd the table. In that case the function compares the strings whose tails the
/// names are. Allocates about 40 bytes for each exported symbol, and frees all but about 28 of them
/// before it returns.
pub(crate) fn unique_exports<'a>(
    alloc: Global,
    object: &Object<'a>,
) -> Result<Option<Exports<'a>>, AllocError>
    ensures ok { IfOk result (λ found. MatchOption found
        (has_duplicate_definition object.now ≡ true)
        (λ exports. (has_duplicate_definition object.now ≡ false)
        × AreExports object.now exports.symbols.items exports.names.items
        × (exports.symbols.items ≢ [] → IsWhole object.now exports.symbols.items))) }
    ensures err { OnErr result (2 ≤ length (exported_symbols object.now)) }
{
    let Ok(mut symbols) = exported_symbols(alloc, object) else {
        return few_exports(alloc, object);
    };
    if symbols.len() < 2 {
        return Ok(Some(Exports::none(alloc, object)));
    }
    if let Some(told) = names_in_table(alloc, object, &symbols)? {
        let (names, differ) = told;
        if differ {
            return Ok(Some(Exports { symbols, names }));
        }
        return Ok(None);
    }
    symbols.sort_unstable_by_key(|i| offset_of(object, *i));
    let names = names_of(alloc, object, &symbols)?;
    if differ_in_strings(alloc, object, &symbols, &names)? {
        return Ok(Some(Exports { symbols, names }));
    }
    Ok(None)
}
