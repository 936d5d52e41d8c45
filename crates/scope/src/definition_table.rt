// Finds the definitions of all symbols of an order at once. They are the same as those that lookup
// finds one by one.

ghost use Rattle.std.specs.Prelude.{◌≡◌, ◌<◌, ◌≤◌, ◌+◌, ◌^◌, ◌↔◌, ℕ, [], length, map, false};
ghost use Rattle.std.specs.Prelude.{IsTrue, IfOk, slice_index_or};
ghost use Rattle.std.specs.List.{All};
ghost use Rattle.elf_file.specs.Dynamic.{is_symbolic};
ghost use Rattle.hash_check.specs.Numbered.{nth_symbol, name_in, AreNumbered};
ghost use Rattle.scope.specs.Objects.{IsTaken, file_at};
ghost use Rattle.scope.specs.Lookup.{lookup};
ghost use Rattle.scope.specs.inside.Definitions.{nth_target, nth_found, AreFirst, AreOwn};
ghost use Rattle.scope.specs.inside.Definitions.{HaveRoom, IsPutAt, IsFound};

use crate::definition::Definition;
use crate::definitions::{first_definitions, no_definitions, own_definitions};
use crate::loaded::LoadedObject;
use crate::target::Target;
use hash_check::{Admitted, NumberedSymbol, numbered_symbols};
use std::alloc::{AllocError, Global};

/// For each symbol of each object, the definition that lookup finds for the symbol's name.
#[derive(Drop)]
pub(crate) struct DefinitionTable {
    rows: Vec<Vec<Definition>>,
}

/// Returns the objects as admitted objects.
fn admitted<'a>(
    alloc: Global,
    objects: &[LoadedObject<'a>],
) -> Result<Vec<&'a Admitted<'a>>, AllocError>
    ensures { IfOk result (λ v. map (λ o. o.now) v.items ≡ map (λ o. o.file) objects.now) }
{
    let mut all = Vec::with_capacity(alloc, objects.len())?;
    for object in objects {
        all.push_reserved(object.object());
    }
    Ok(all)
}

/// Returns a row for each object, in which no symbol of the object has a definition yet.
fn no_rows(alloc: Global, objects: &[LoadedObject<'_>]) -> Result<Vec<Vec<Definition>>, AllocError>
    ensures { IfOk result (λ v. HaveRoom objects.now (map (λ r. r.items) v.items)) }
{
    let mut rows = Vec::with_capacity(alloc, objects.len())?;
    for object in objects {
        let count = object.object().object().symbol_count() as usize;
        rows.push_reserved(no_definitions(alloc, count)?);
    }
    Ok(rows)
}

/// Returns whether one of the objects is symbolic.
fn has_symbolic(objects: &[LoadedObject<'_>]) -> bool
    ensures { result ≡ false → (p : ℕ) → p < length objects.now
        → is_symbolic (file_at objects.now p) ≡ false }
{
    for object in objects {
        if object.is_symbolic() {
            return true;
        }
    }
    false
}

/// Returns, for each symbol, the definition of its name in its own object. If no object is
/// symbolic, returns an empty list, because these definitions aren't needed.
fn own_where_symbolic(
    alloc: Global,
    objects: &[LoadedObject<'_>],
    symbols: &[NumberedSymbol],
) -> Result<Vec<Definition>, AllocError>
    requires few { length objects.now < 2 ^ 32 }
    requires numbered { AreNumbered (map (λ o. o.file) objects.now) symbols.now }
    requires taken { All (λ o. IsTaken o.file) objects.now }
    ensures { IfOk result (λ v. AreOwn objects.now symbols.now v.items) }
{
    if has_symbolic(objects) {
        own_definitions(alloc, objects, symbols)
    } else {
        Ok(Vec::new(alloc))
    }
}

/// Returns definition number `at` of a list, or no definition if the list is shorter.
fn definition_at(kept: &[Definition], at: usize) -> Definition
    ensures { result ≡ nth_target kept.now at }
{
    if at < kept.len() {
        kept[at].copied()
    } else {
        Definition::none()
    }
}

/// Returns the definition that lookup finds for symbol number `at` of the list.
fn found_for(
    objects: &[LoadedObject<'_>],
    symbols: &[NumberedSymbol],
    first: &[Definition],
    own: &[Definition],
    at: usize,
) -> Definition
    requires numbered { AreNumbered (map (λ o. o.file) objects.now) symbols.now }
    requires taken { All (λ o. IsTaken o.file) objects.now }
    requires first { AreFirst objects.now symbols.now (length symbols.now) first.now }
    requires own { AreOwn objects.now symbols.now own.now }
    requires at { at < length symbols.now }
    ensures { let symbol = nth_symbol symbols.now at in result
        ≡ lookup objects.now symbol.object (name_in (map (λ o. o.file) objects.now) symbol) }
{
    let symbol = symbols[at];
    if objects[symbol.object].is_symbolic() {
        let own = definition_at(own, at);
        if own.target().is_some() {
            return own;
        }
    }
    definition_at(first, symbol.number as usize)
}

/// Stores the definition `found` for a symbol of the object at `place`, in this object's row.
fn put(rows: &mut [Vec<Definition>], place: usize, symbol: u32, found: Definition)
    requires place { place < length rows.old }
    requires symbol { symbol
        < length (slice_index_or (map (λ r. r.items) rows.old) place []) }
    ensures { IsPutAt (map (λ r. r.items) rows.old) (map (λ r. r.items) rows.new)
        place symbol found }
{
    rows[place][symbol as usize] = found;
}

impl DefinitionTable {
    /// Finds the definitions of all symbols of the objects. Allocates about 8 bytes for each symbol
    /// of the result, and about 60 more while it runs. Returns an error if there are 2^32 objects
    /// or more.
    pub(crate) fn new(
        alloc: Global,
        objects: &[LoadedObject<'_>],
    ) -> Result<DefinitionTable, AllocError>
        requires { All (λ o. IsTaken o.file) objects.now }
        ensures { IfOk result (λ f. IsFound objects.now (map (λ r. r.items) f.rows.items)) }
    {
        if objects.len() >= 1 << 32 {
            return Err(AllocError);
        }
        let admitted = admitted(alloc, objects)?;
        let symbols = numbered_symbols(alloc, &admitted)?;
        let first = first_definitions(alloc, objects, &symbols)?;
        let own = own_where_symbolic(alloc, objects, &symbols)?;
        let mut rows = no_rows(alloc, objects)?;
        for at in 0..symbols.len() {
            let found = found_for(objects, &symbols, &first, &own, at);
            put(&mut rows, symbols[at].object, symbols[at].symbol, found);
        }
        Ok(DefinitionTable { rows })
    }

    /// Returns the definition of symbol number `symbol` of the object at `place`, if there is one.
    pub(crate) fn of_symbol(&self, place: usize, symbol: u32) -> Option<Target>
        requires place { place < length self.now.rows.items }
        requires symbol { symbol
            < length (slice_index_or (map (λ r. r.items) self.now.rows.items) place []) }
        ensures { result ≡ nth_found (map (λ r. r.items) self.now.rows.items) place symbol }
    {
        self.rows[place][symbol as usize].target()
    }
}
