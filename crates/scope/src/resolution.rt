// Binds symbols to their targets.

ghost use Rattle.std.specs.Prelude.{◌≡◌, ◌<◌, length, Some, None, MatchResult};
ghost use Rattle.elf_dynamic.specs.Symbol.{symbols};
ghost use Rattle.scope.specs.Objects.{file_at};
ghost use Rattle.scope.specs.Target.{target, is_own, is_withheld};

use crate::lookup::lookup;
use crate::order::Order;
use crate::target::{Target, Undefined};
use elf_dynamic::Symbol;

/// Returns whether a symbol is bound to itself, because no other object can replace it.
pub(crate) fn is_own(symbol: Symbol) -> bool
    ensures { result ≡ is_own symbol }
{
    symbol.is_local() || (symbol.is_defined() && !symbol.has_default_visibility())
}

/// Returns whether a symbol isn't defined in its own object, and no other object can define it
/// either.
pub(crate) fn is_withheld(symbol: Symbol) -> bool
    ensures { result ≡ is_withheld symbol }
{
    !symbol.is_defined() && symbol.is_hidden()
}

/// Returns the target of symbol number `symbol` of the object at place `object`. Allocates nothing.
/// If the symbol has to be looked up, hashes its name once, and follows one walk in each object up
/// to the object that defines the name. A symbolic object takes one more walk.
#[tactic(auto, unfolding(crate::specs::Target::target))]
pub fn resolve(order: &Order<'_>, object: usize, symbol: u32) -> Result<Target, Undefined>
    requires object { object < length order.now }
    requires symbol { symbol < length (symbols (file_at order.now object)) }
    ensures { MatchResult result
        (λ found. target order.now object symbol ≡ Some found)
        (λ _. target order.now object symbol ≡ None) }
{
    if symbol == 0 {
        return Ok(Target::Zero);
    }
    let file = order.object(object).object();
    let entry = file.symbol(symbol);
    if is_own(entry) {
        return Ok(Target::At { object, symbol });
    }
    if !is_withheld(entry) {
        if let Some(found) = lookup(order, object, symbol) {
            return Ok(found);
        }
    }
    if entry.is_weak() {
        Ok(Target::Zero)
    } else {
        Err(Undefined)
    }
}
