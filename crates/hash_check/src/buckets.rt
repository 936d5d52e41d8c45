// Reads the buckets of an object's hash table.

ghost use Rattle.std.specs.Prelude.{◌≡◌, ◌<◌, ◌≤◌, ◌↔◌, length, slice_index, IsTrue};
ghost use Rattle.elf_dynamic.specs.HashTable.{buckets};
ghost use Rattle.hash_check.specs.HashTable.{AreIndices, bucket_of};

use elf_dynamic::Object;
use std::marker::Model;

/// The buckets of an object's hash table. In contracts, the value is the list of the buckets'
/// words.
#[derive(Drop)]
pub(crate) struct Buckets<'o, 'a> {
    object: &'o Object<'a>,
}

impl<'o, 'a> Model for Buckets<'o, 'a> {
    ghost use Rattle.std.specs.Prelude.{List, ℕ};
    ghost use Rattle.elf_dynamic.specs.HashTable.{buckets};

    ghost Value = { List ℕ };

    ghost view = { λ b. buckets b.object.now };
}

impl<'o, 'a> Buckets<'o, 'a> {
    /// Returns the buckets of an object.
    pub(crate) fn new(object: &'o Object<'a>) -> Buckets<'o, 'a>
        ensures { result ≡ buckets object.now }
    {
        Buckets { object }
    }

    /// The number of buckets.
    pub(crate) fn count(&self) -> u32
        ensures { result ≡ length self.now }
    {
        self.object.bucket_count()
    }

    /// Returns the word of bucket number `i`.
    pub(crate) fn word(&self, i: u32) -> u32
        requires { i < length self.now }
        ensures { result ≡ slice_index self.now i }
    {
        self.object.bucket(i)
    }

    /// Returns the word of the bucket for `hash`: the index at which the walk for this hash begins.
    pub(crate) fn of_hash(&self, hash: u32) -> u32
        requires { 1 ≤ length self.now }
        ensures { result ≡ bucket_of self.now hash }
    {
        self.word(hash % self.count())
    }

    /// Returns whether each word is the index of one of `n` symbols.
    pub(crate) fn are_indices(&self, n: u32) -> bool
        ensures { IsTrue result ↔ AreIndices n self.now }
    {
        for i in 0..self.count() {
            if self.word(i) >= n {
                return false;
            }
        }
        true
    }
}
