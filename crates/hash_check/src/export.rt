// Tests which symbols an object exports.

ghost use Rattle.std.specs.Prelude.{◌≡◌, ◌<◌, length, IfOk};
ghost use Rattle.elf_dynamic.specs.Symbol.{symbols};
ghost use Rattle.hash_check.specs.Export.{exports, is_exported, exported_symbols};

use elf_dynamic::{Object, Symbol};
use std::alloc::{AllocError, Global};

/// Returns whether a symbol with these fields is exported, if its number isn't 0.
#[tactic(auto, unfolding(crate::specs::Export::exports))]
fn exports(symbol: Symbol) -> bool
    ensures { result ≡ exports symbol }
{
    (symbol.is_global() || symbol.is_weak())
        && symbol.is_defined()
        && symbol.is_function_or_object()
        && symbol.is_visible()
}

/// Returns whether symbol number `i` is exported.
#[tactic(auto, unfolding(crate::specs::Export::is_exported))]
pub(crate) fn is_exported(object: &Object<'_>, i: u32) -> bool
    requires { i < length (symbols object.now) }
    ensures { result ≡ is_exported object.now i }
{
    i != 0 && exports(object.symbol(i))
}

/// Returns the number of exported symbols.
#[tactic(auto, unfolding(crate::specs::Export::exported_symbols))]
pub(crate) fn exported_count(object: &Object<'_>) -> usize
    ensures { result ≡ length (exported_symbols object.now) }
{
    (1..object.symbol_count())
        .filter(|i| is_exported(object, *i))
        .count()
}

/// Returns the numbers of the exported symbols.
#[tactic(auto, unfolding(crate::specs::Export::exported_symbols))]
pub(crate) fn exported_symbols(alloc: Global, object: &Object<'_>) -> Result<Vec<u32>, AllocError>
    ensures { IfOk result (λ numbers. numbers.items ≡ exported_symbols object.now) }
{
    (1..object.symbol_count())
        .filter(|i| is_exported(object, *i))
        .collect(alloc)
}
