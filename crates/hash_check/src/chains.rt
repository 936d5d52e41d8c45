// Reads the chain words of an object's hash table.

ghost use Rattle.std.specs.Prelude.{◌≡◌, ◌<◌, ◌^◌, ◌↔◌, length, slice_index, IsTrue};
ghost use Rattle.elf_dynamic.specs.Symbol.{symbols};
ghost use Rattle.elf_dynamic.specs.HashTable.{chains};
ghost use Rattle.hash_check.specs.HashTable.{AreIndices};

use elf_dynamic::Object;
use std::marker::Model;

/// The chain words of an object's hash table. In contracts, the value is the list of these words.
#[derive(Drop)]
pub(crate) struct Chains<'o, 'a> {
    object: &'o Object<'a>,
    count: u32,
}

impl<'o, 'a> Model for Chains<'o, 'a> {
    ghost use Rattle.std.specs.Prelude.{List, ℕ, ◌≡◌, length};
    ghost use Rattle.elf_dynamic.specs.HashTable.{chains};

    ghost Value = { List ℕ };

    ghost view = { λ c. chains c.object.now };

    ghost invariant = { λ c. c.count ≡ length (chains c.object.now) };
}

impl<'o, 'a> Chains<'o, 'a> {
    /// Returns the chain words of an object. The object has one for each symbol.
    pub(crate) fn new(object: &'o Object<'a>) -> Chains<'o, 'a>
        ensures words { result ≡ chains object.now }
        ensures symbols { length result ≡ length (symbols object.now) }
        ensures few { length result < 2 ^ 32 }
    {
        let count = object.symbol_count();
        Chains { object, count }
    }

    /// The number of chain words.
    pub(crate) fn count(&self) -> u32
        ensures { result ≡ length self.now }
    {
        self.count
    }

    /// Returns the chain word of index `i`.
    pub(crate) fn next(&self, i: u32) -> u32
        requires { i < length self.now }
        ensures { result ≡ slice_index self.now i }
    {
        self.object.chain(i)
    }

    /// Returns whether each chain word is the index of a symbol.
    pub(crate) fn are_indices(&self) -> bool
        ensures { IsTrue result ↔ AreIndices (length self.now) self.now }
    {
        let count = self.count();
        for i in 0..count {
            if self.next(i) >= count {
                return false;
            }
        }
        true
    }
}
