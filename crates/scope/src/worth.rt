// Decides whether finding the definitions of all symbols at once may be faster than walking through
// the hash tables for each symbol.

ghost use Rattle.std.specs.Prelude.{◌≤◌, map, IfSome};
ghost use Rattle.std.specs.List.{All};
ghost use Rattle.scope.specs.Objects.{IsTaken};
ghost use Rattle.scope.specs.inside.Definitions.{IsFound};

use crate::definition_table::DefinitionTable;
use crate::loaded::LoadedObject;
use elf_dynamic::{Object, R_X86_64_64, R_X86_64_GLOB_DAT, R_X86_64_JUMP_SLOT, Relocation};
use hash_check::NameBudget;
use std::alloc::Global;

/// The maximum number of walk steps that take no longer than inserting one name into a table.
const STEPS_OF_A_NAME: u64 = 2;

/// Returns whether a relocation uses the value of its symbol.
fn is_lookup(relocation: Relocation) -> bool {
    matches!(
        relocation.kind,
        R_X86_64_64 | R_X86_64_GLOB_DAT | R_X86_64_JUMP_SLOT
    )
}

/// Returns the maximum number of lookups for an object: the smaller of the number of its symbols
/// and the number of its relocations that use a symbol's value.
fn lookups_of(object: &Object<'_>) -> u64 {
    let mut naming = 0;
    for i in 0..object.rela_count() {
        if is_lookup(object.rela(i)) {
            naming += 1;
        }
    }
    u64::from(object.symbol_count()).min(naming)
}

/// Returns the number of symbols on the walk from index `from`, but at most `most`.
fn walk_length(object: &Object<'_>, from: u32, most: u32) -> u32
    ensures { result ≤ most }
{
    let mut at = from;
    for steps in 0..most {
        if at == 0 || at >= object.symbol_count() {
            return steps;
        }
        at = object.chain(at);
    }
    most
}

/// Returns the number of symbols on the longest walk of an object. If all walks together have as
/// many steps as the object has symbols, some walks share symbols. If this happens, stops and
/// returns the number of all symbols.
fn longest_walk(object: &Object<'_>) -> u32 {
    let mut left = object.symbol_count();
    let mut longest = 0;
    for i in 0..object.bucket_count() {
        let length = walk_length(object, object.bucket(i), left);
        left -= length;
        if left == 0 {
            return object.symbol_count();
        }
        longest = length.max(longest);
    }
    longest
}

/// Returns whether walks may take longer than a table. The cost of walks is the number of lookups,
/// multiplied by the sum, over all objects, of one step and the length of the object's longest
/// walk. The function compares this cost with twice the number of names. So if walks are used, they
/// compare at most two symbols for each name, and at most four if objects are symbolic. A table
/// takes a constant time for each name, as the name's admission did.
fn may_be_long(objects: &[LoadedObject<'_>]) -> bool {
    let (mut lookups, mut steps, mut names) = (0u64, 0u64, 0u64);
    for loaded in objects {
        let object = loaded.object().object();
        lookups = lookups.saturating_add(lookups_of(object));
        steps = steps.saturating_add(1 + u64::from(longest_walk(object)));
        names = names.saturating_add(u64::from(object.symbol_count()));
    }
    lookups.saturating_mul(steps) > names.saturating_mul(STEPS_OF_A_NAME)
}

/// Returns whether many of the names that an object looks up are tails of other names, judged by
/// the total length of these names. Hashing such names one by one would take time proportional to
/// the sum of their lengths.
fn share_bytes(object: &Object<'_>) -> bool {
    let mut budget = NameBudget::new(object.string_table().len());
    for i in 0..object.rela_count() {
        let relocation = object.rela(i);
        if is_lookup(relocation)
            && relocation.symbol < object.symbol_count()
            && !budget.take(object.name_of(relocation.symbol).len())
        {
            return true;
        }
    }
    false
}

fn any_share_bytes(objects: &[LoadedObject<'_>]) -> bool {
    for loaded in objects {
        if share_bytes(loaded.object().object()) {
            return true;
        }
    }
    false
}

/// Finds the definitions of all symbols, if lookups by walks may take longer than this. Otherwise,
/// or if memory is refused, returns `None`.
pub(crate) fn worthy_table(alloc: Global, objects: &[LoadedObject<'_>]) -> Option<DefinitionTable>
    requires { All (λ o. IsTaken o.file) objects.now }
    ensures { IfSome result (λ t. IsFound objects.now (map (λ r. r.items) t.rows.items)) }
{
    if !may_be_long(objects) && !any_share_bytes(objects) {
        return None;
    }
    DefinitionTable::new(alloc, objects).ok()
}
