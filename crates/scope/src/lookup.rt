// Searches objects for a name.

ghost use Rattle.std.specs.Prelude.{◌≡◌, ◌<◌, ◌≤◌, length, map};
ghost use Rattle.elf_file.specs.FirstOf.{first_of};
ghost use Rattle.elf_dynamic.specs.Symbol.{symbols};
ghost use Rattle.elf_dynamic.specs.Strings.{name_of};
ghost use Rattle.hash_check.specs.Hash.{elf_hash};
ghost use Rattle.scope.specs.Objects.{file_at};
ghost use Rattle.scope.specs.Lookup.{all_places, definition_at, lookup};

use crate::order::Order;
use crate::target::Target;
use hash_check::elf_hash;

/// Returns the symbol that the object at `place` exports under `name`. `hash` is the hash of
/// `name`.
fn definition_at(order: &Order<'_>, place: usize, name: &[u8], hash: u32) -> Option<Target>
    requires place { place < length order.now }
    requires hash { hash ≡ elf_hash name.now }
    ensures { result ≡ definition_at order.now name.now place }
{
    match order.object(place).find_hashed(name, hash).symbol {
        Some(symbol) => Some(Target::At {
            object: place,
            symbol,
        }),
        None => None,
    }
}

/// Returns the first definition of `name` in load order, which may be weak. `hash` is the hash of
/// `name`. Follows one walk in each object, up to the object that defines the name.
fn first_by_walks(order: &Order<'_>, name: &[u8], hash: u32) -> Option<Target>
    requires { hash ≡ elf_hash name.now }
    ensures { result ≡ first_of
        (map (definition_at order.now name.now) (all_places order.now)) }
{
    for place in 0..order.count() {
        if let Some(found) = definition_at(order, place, name, hash) {
            return Some(found);
        }
    }
    None
}

/// Returns the first definition, which may be weak, of the name of symbol number `symbol` of the
/// object at place `object`. If this object is symbolic, searches it first. Then searches all
/// objects in load order.
#[tactic(auto, unfolding(crate::specs::Lookup::lookup))]
pub(crate) fn lookup(order: &Order<'_>, object: usize, symbol: u32) -> Option<Target>
    requires object { object < length order.now }
    requires some { 1 ≤ symbol }
    requires within { symbol < length (symbols (file_at order.now object)) }
    ensures { result ≡ lookup order.now object (name_of (file_at order.now object) symbol) }
{
    if let Some(found) = order.table() {
        return found.of_symbol(object, symbol);
    }
    let name = order.object(object).name_at(symbol);
    let hash = elf_hash(name);
    if order.is_symbolic(object) {
        if let Some(own) = definition_at(order, object, name, hash) {
            return Some(own);
        }
    }
    first_by_walks(order, name, hash)
}
