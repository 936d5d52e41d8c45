// Finds the definitions of names, which are identified by numbers.

ghost use Rattle.std.specs.Prelude.{◌≡◌, ◌<◌, ◌≤◌, ◌+◌, ◌^◌, ℕ, length, map, None, IfOk};
ghost use Rattle.std.specs.Prelude.{replicate};
ghost use Rattle.elf_dynamic.specs.Symbol.{symbols};
ghost use Rattle.hash_check.specs.Export.{is_exported};
ghost use Rattle.hash_check.specs.Numbered.{nth_symbol, AreNumbered};
ghost use Rattle.scope.specs.Objects.{IsTaken, file_at};
ghost use Rattle.std.specs.List.{All};
ghost use Rattle.scope.specs.inside.Definitions.{AreFirst, AreLast, AreUpTo, own_of, AreOwn};

use crate::definition::Definition;
use crate::loaded::LoadedObject;
use crate::target::Target;
use hash_check::NumberedSymbol;
use std::alloc::{AllocError, Global};

/// Returns `count` values that stand for no definition.
pub(crate) fn no_definitions(alloc: Global, count: usize) -> Result<Vec<Definition>, AllocError>
    ensures { IfOk result (λ v. v.items ≡ replicate count None) }
{
    let mut kept = Vec::with_capacity(alloc, count)?;
    for number in 0..count {
        kept.push_reserved(Definition::none());
    }
    Ok(kept)
}

/// Returns whether a symbol is exported.
fn is_exported(objects: &[LoadedObject<'_>], symbol: NumberedSymbol) -> bool
    requires there { symbol.object < length objects.now }
    requires within { symbol.symbol < length (symbols (file_at objects.now symbol.object)) }
    ensures { result ≡ is_exported (file_at objects.now symbol.object) symbol.symbol }
{
    objects[symbol.object].object().is_exported(symbol.symbol)
}

/// Stores symbol number `at` of the list as the definition of its name's number, if the symbol is
/// exported and the number has no definition yet.
fn keep_first(
    objects: &[LoadedObject<'_>],
    symbols: &[NumberedSymbol],
    at: usize,
    first: &mut [Definition],
)
    requires few { length objects.now < 2 ^ 32 }
    requires numbered { AreNumbered (map (λ o. o.file) objects.now) symbols.now }
    requires at { at < length symbols.now }
    requires first { AreFirst objects.now symbols.now at first.old }
    ensures { AreFirst objects.now symbols.now (at + 1) first.new }
{
    let symbol = symbols[at];
    let number = symbol.number as usize;
    if first[number].target().is_none() && is_exported(objects, symbol) {
        first[number] = Definition::at(symbol.object as u32, symbol.symbol);
    }
}

/// Returns, for each number, the first definition in load order. It may be weak.
pub(crate) fn first_definitions(
    alloc: Global,
    objects: &[LoadedObject<'_>],
    symbols: &[NumberedSymbol],
) -> Result<Vec<Definition>, AllocError>
    requires few { length objects.now < 2 ^ 32 }
    requires numbered { AreNumbered (map (λ o. o.file) objects.now) symbols.now }
    ensures { IfOk result (λ v.
        AreFirst objects.now symbols.now (length symbols.now) v.items) }
{
    let mut first = no_definitions(alloc, symbols.len() + 1)?;
    for at in 0..symbols.len() {
        keep_first(objects, symbols, at, &mut first);
    }
    Ok(first)
}

/// Stores symbol number `at` of the list as the definition of its name's number, if the symbol is
/// exported.
fn keep_last(
    objects: &[LoadedObject<'_>],
    symbols: &[NumberedSymbol],
    at: usize,
    last: &mut [Definition],
)
    requires few { length objects.now < 2 ^ 32 }
    requires numbered { AreNumbered (map (λ o. o.file) objects.now) symbols.now }
    requires at { at < length symbols.now }
    requires last { AreLast objects.now symbols.now at last.old }
    ensures { AreLast objects.now symbols.now (at + 1) last.new }
{
    let symbol = symbols[at];
    if is_exported(objects, symbol) {
        last[symbol.number as usize] = Definition::at(symbol.object as u32, symbol.symbol);
    }
}

/// Stores the definitions by the objects up to the one at `place`. The first `kept` symbols of the
/// list have already been processed. Returns the number of symbols that have been processed after
/// the call.
fn keep_up_to(
    objects: &[LoadedObject<'_>],
    symbols: &[NumberedSymbol],
    kept: usize,
    place: usize,
    last: &mut [Definition],
) -> usize
    requires few { length objects.now < 2 ^ 32 }
    requires numbered { AreNumbered (map (λ o. o.file) objects.now) symbols.now }
    requires last { AreLast objects.now symbols.now kept last.old }
    requires within { kept ≤ length symbols.now }
    requires low { (k : ℕ) → k < kept → (nth_symbol symbols.now k).object ≤ place }
    ensures last { AreLast objects.now symbols.now result last.new }
    ensures up_to { AreUpTo symbols.now result place }
{
    let mut at = kept;
    while at < symbols.len() && symbols[at].object <= place {
        keep_last(objects, symbols, at, last);
        at += 1;
    }
    at
}

/// Returns `found` if it is a definition by the object at `place`, and otherwise no definition.
#[tactic(auto, unfolding(crate::specs::inside::Definitions::own_of))]
fn own_one(found: &Definition, place: usize) -> Definition
    ensures { result ≡ own_of place found.now }
{
    match found.target() {
        Some(Target::At { object, symbol: _ }) if object == place => found.copied(),
        _ => Definition::none(),
    }
}

/// Returns, for each symbol of `symbols`, the symbol that its own object exports under its name.
pub(crate) fn own_definitions(
    alloc: Global,
    objects: &[LoadedObject<'_>],
    symbols: &[NumberedSymbol],
) -> Result<Vec<Definition>, AllocError>
    requires few { length objects.now < 2 ^ 32 }
    requires numbered { AreNumbered (map (λ o. o.file) objects.now) symbols.now }
    requires taken { All (λ o. IsTaken o.file) objects.now }
    ensures { IfOk result (λ v. AreOwn objects.now symbols.now v.items) }
{
    let mut last = no_definitions(alloc, symbols.len() + 1)?;
    let mut own = Vec::with_capacity(alloc, symbols.len())?;
    let mut kept = 0;
    for at in 0..symbols.len() {
        let place = symbols[at].object;
        kept = keep_up_to(objects, symbols, kept, place, &mut last);
        own.push_reserved(own_one(&last[symbols[at].number as usize], place));
    }
    Ok(own)
}
