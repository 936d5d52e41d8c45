// Finds the symbols to which relocations refer.

ghost use Rattle.std.specs.Prelude.{◌≡◌, ◌<◌, ◌∷◌, ◌++◌, [], ℕ, List, length, map, true, IfOk};
ghost use Rattle.elf_dynamic.specs.Relocation.{uses_symbol};
ghost use Rattle.elf_dynamic.specs.declared.relocation.Relocation.{Relocation as Rela};
ghost use Rattle.bindings.specs.inside.Flags.{AllFlags, AreFlags, FileFlags};

use elf_dynamic::{Object, Relocation, uses_symbol};
use image::PlacedOrder;
use std::alloc::{AllocError, Global};

/// Sets the flag of the symbol whose value `relocation` uses, if it uses one.
fn note(flags: &mut [bool], relocation: Relocation)
    requires { uses_symbol relocation.kind ≡ true → relocation.symbol < length flags.old }
    ensures { (count : ℕ) → (rs : List Rela) → AreFlags count rs flags.old
        → AreFlags count (rs ++ relocation ∷ []) flags.new }
{
    if uses_symbol(relocation.kind) {
        flags[relocation.symbol as usize] = true;
    }
}

/// Returns a flag for each symbol of an object, which is true if a relocation of the object refers
/// to the symbol. Allocates one byte for each symbol, and makes one pass over the relocations.
fn named_flags(alloc: Global, object: &Object<'_>) -> Result<Vec<bool>, AllocError>
    ensures { IfOk result (λ flags. FileFlags object.now flags.items) }
{
    let mut flags = vec![in alloc; false; object.symbol_count() as usize]?;
    for i in 0..object.rela_count() {
        let relocation = object.rela(i);
        note(&mut flags, relocation);
    }
    Ok(flags)
}

/// Returns the flags of all objects.
pub(crate) fn all_flags(
    alloc: Global,
    objects: &PlacedOrder<'_>,
) -> Result<Vec<Vec<bool>>, AllocError>
    ensures { IfOk result (λ all. AllFlags objects.now (map (λ f. f.items) all.items)) }
{
    let count = objects.count();
    let mut all = Vec::with_capacity(alloc, count)?;
    for own in 0..count {
        let flags = named_flags(alloc, objects.object(own))?;
        all.push_reserved(flags);
    }
    Ok(all)
}
