// Searches for a name in an object's hash table.

ghost use Rattle.std.specs.Prelude.{◌≡◌, ◌≢◌, false, length, take};
ghost use Rattle.std.specs.Str.{bytes_eq};
ghost use Rattle.elf_dynamic.specs.Strings.{string_at, name_of};
ghost use Rattle.hash_check.specs.Hash.{elf_hash};
ghost use Rattle.hash_check.specs.Definition.{is_exported_as, definition_of, HasUniqueNames};
ghost use Rattle.hash_check.specs.HashTable.{HasGoodTable};
ghost use Rattle.hash_check.specs.Search.{compared};
ghost use Rattle.hash_check.specs.inside.Names.{IsSymbol};

use crate::buckets::Buckets;
use crate::chains::Chains;
use crate::export::is_exported;
use elf_dynamic::Object;

/// The result of a search, and the number of symbols that the search compared.
#[derive(Clone, Copy, PartialEq, Eq)]
pub struct Found {
    /// The number of the symbol that is exported under the name, if there is one.
    pub symbol: Option<u32>,
    /// The number of symbols that were compared on the walk, including the symbol that was found.
    pub compared: u32,
}

/// Returns the string at `offset` of a string table, or its first `limit` bytes if it is longer.
fn string_front(table: &[u8], offset: u32, limit: usize) -> &[u8]
    ensures { result.now ≡ take limit (string_at table.now offset) }
{
    let rest = &table[(offset as usize).min(table.len())..];
    let front = &rest[..limit.min(rest.len())];
    for i in 0..front.len() {
        if front[i] == 0 {
            return &front[..i];
        }
    }
    front
}

/// Returns whether the string at `offset` of a string table may have exactly `size` bytes: the byte
/// after them is 0, or the table ends before that byte.
fn may_end(table: &[u8], offset: u32, size: usize) -> bool
    ensures { result ≡ false → length (string_at table.now offset) ≢ size }
{
    let rest = &table[(offset as usize).min(table.len())..];
    size >= rest.len() || rest[size] == 0
}

/// Returns whether the name of symbol number `i` is `name`. First tests the byte that would follow
/// the name, which excludes most names of other lengths. For this reason, if names are tails of one
/// string, usually only one of them is read whole.
fn is_named(object: &Object<'_>, i: u32, name: &[u8]) -> bool
    requires { IsSymbol object.now i }
    ensures { result ≡ bytes_eq (name_of object.now i) name.now }
{
    let (table, offset) = (object.string_table(), object.symbol(i).name);
    if !may_end(table, offset, name.len()) {
        return false;
    }
    string_front(table, offset, name.len() + 1) == name
}

/// Returns whether symbol number `i` is exported under `name`.
#[tactic(auto, unfolding(crate::specs::Definition::is_exported_as))]
fn is_exported_as(object: &Object<'_>, name: &[u8], i: u32) -> bool
    requires { IsSymbol object.now i }
    ensures { result ≡ is_exported_as object.now name.now i }
{
    is_exported(object, i) && is_named(object, i, name)
}

/// Searches for the symbol that is exported under `name`. Follows the walk from the bucket of
/// `hash`, the hash of `name`, up to this symbol or up to the end of the walk.
pub(crate) fn search(object: &Object<'_>, name: &[u8], hash: u32) -> Found
    requires unique { HasUniqueNames object.now }
    requires table { HasGoodTable object.now }
    requires hash { hash ≡ elf_hash name.now }
    ensures symbol { result.symbol ≡ definition_of object.now name.now }
    ensures compared { result.compared ≡ compared object.now name.now hash }
{
    let chains = Chains::new(object);
    let mut at = Buckets::new(object).of_hash(hash);
    let mut compared = 0;
    while at != 0 {
        compared += 1;
        if is_exported_as(object, name, at) {
            let symbol = Some(at);
            return Found { symbol, compared };
        }
        at = chains.next(at);
    }
    Found {
        symbol: None,
        compared,
    }
}
