// Computes the values that relocations write.

ghost use Rattle.std.specs.Prelude.{◌≡◌, ◌<◌, ℕ, length, slice_index, true, false, None};
ghost use Rattle.std.specs.Prelude.{IfOk, MatchResult, replicate};
ghost use Rattle.elf_dynamic.specs.Relocation.{uses_symbol};
ghost use Rattle.elf_dynamic.specs.Symbol.{symbols};
ghost use Rattle.image.specs.Bound.{IsKnown, IsReady, value_in};
ghost use Rattle.image.specs.Relocating.{file_at, is_undefined, symbol_value, value_with};
ghost use Rattle.image.specs.inside.Bound.{AreValues};

use crate::placed::PlacedOrder;
use elf_dynamic::{
    R_X86_64_64, R_X86_64_GLOB_DAT, R_X86_64_JUMP_SLOT, R_X86_64_RELATIVE, Relocation, uses_symbol,
};
use scope::Undefined;
use std::alloc::{AllocError, Global};

/// The values of an object's symbols, in the order of the symbol numbers, with flags that mark the
/// known values.
#[derive(Drop)]
pub(crate) struct Values {
    pub(crate) values: Vec<u64>,
    pub(crate) known: Vec<bool>,
}

impl Values {
    /// Makes room for `count` values, none of which is known yet.
    pub(crate) fn unknown(alloc: Global, count: u32) -> Result<Values, AllocError>
        ensures values { IfOk result (λ v. v.values.items ≡ replicate count 0) }
        ensures known { IfOk result (λ v. v.known.items ≡ replicate count false) }
    {
        let mut values = Vec::with_capacity(alloc, count as usize)?;
        values.resize(count as usize, 0)?;
        let mut known = Vec::with_capacity(alloc, count as usize)?;
        known.resize(count as usize, false)?;
        Ok(Values { values, known })
    }
}

/// Finds the value of symbol number `symbol` of object number `own`, and stores it in `found`,
/// unless it is known already. Returns `Undefined` if the symbol is undefined.
fn find_value(
    objects: &PlacedOrder<'_>,
    own: usize,
    found: &mut Values,
    symbol: u32,
) -> Result<(), Undefined>
    requires own { own < length objects.now }
    requires symbol { symbol < length (symbols (file_at objects.now own)) }
    requires kept { AreValues objects.now own found.old.values.items found.old.known.items }
    ensures kept { AreValues objects.now own found.new.values.items found.new.known.items }
    ensures stays { (k : ℕ) → IsKnown objects.now own found.old.values.items k
        → IsKnown objects.now own found.new.values.items k }
    ensures found { MatchResult result (λ _. IsKnown objects.now own found.new.values.items symbol)
        (λ _. symbol_value objects.now own symbol ≡ None) }
{
    if !found.known[symbol as usize] {
        found.values[symbol as usize] = objects.symbol_value(own, symbol)?;
        found.known[symbol as usize] = true;
    }
    Ok(())
}

/// Finds the value of the symbol that `relocation`, which belongs to object number `own`, uses, if
/// its type uses a symbol. Returns `Undefined` if the symbol is undefined.
pub(crate) fn find_value_of(
    objects: &PlacedOrder<'_>,
    own: usize,
    found: &mut Values,
    relocation: Relocation,
) -> Result<(), Undefined>
    requires own { own < length objects.now }
    requires symbol { uses_symbol relocation.kind ≡ true
        → relocation.symbol < length (symbols (file_at objects.now own)) }
    requires kept { AreValues objects.now own found.old.values.items found.old.known.items }
    ensures kept { AreValues objects.now own found.new.values.items found.new.known.items }
    ensures stays { (k : ℕ) → IsKnown objects.now own found.old.values.items k
        → IsKnown objects.now own found.new.values.items k }
    ensures found { MatchResult result
        (λ _. IsReady objects.now own found.new.values.items relocation
        × (is_undefined objects.now own relocation ≡ false))
        (λ _. is_undefined objects.now own relocation ≡ true) }
{
    if uses_symbol(relocation.kind) {
        find_value(objects, own, found, relocation.symbol)
    } else {
        Ok(())
    }
}

/// Returns the value of symbol number `symbol`, or 0 if `values` has none.
fn value_in(values: &[u64], symbol: u32) -> u64
    ensures { result ≡ slice_index values.now symbol }
{
    match values.get(symbol as usize) {
        Some(value) => *value,
        None => 0,
    }
}

/// Returns the value that `relocation`, which belongs to an object at `base`, writes, or `None` if
/// its type writes none. `values` has the values of the object's symbols.
pub(crate) fn written_value(base: u64, values: &[u64], relocation: Relocation) -> Option<u64>
    ensures { result ≡ value_with base (value_in values.now) relocation }
{
    match relocation.kind {
        R_X86_64_RELATIVE => Some(relocation.plus_addend(base)),
        R_X86_64_64 => Some(relocation.plus_addend(value_in(values, relocation.symbol))),
        R_X86_64_GLOB_DAT | R_X86_64_JUMP_SLOT => Some(value_in(values, relocation.symbol)),
        _ => None,
    }
}
