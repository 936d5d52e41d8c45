// Admits objects, and searches admitted objects for names.

ghost use Rattle.std.specs.Prelude.{◌≡◌, ◌<◌, length, Some, None, true, false};
ghost use Rattle.std.specs.Prelude.{IfOk, IfErr, OnOk, OnErr};
ghost use Rattle.elf_dynamic.specs.Refusal.{first_refusal};
ghost use Rattle.elf_dynamic.specs.Strings.{name_of, soname};
ghost use Rattle.elf_file.specs.declared.refusal.ObjectRefusal.TheVariants.{BadSoname};
ghost use Rattle.elf_dynamic.specs.Symbol.{symbols};
ghost use Rattle.hash_check.specs.Export.{is_exported};
ghost use Rattle.hash_check.specs.Hash.{elf_hash};
ghost use Rattle.hash_check.specs.Definition.{definition_of, HasUniqueNames};
ghost use Rattle.hash_check.specs.HashTable.{HasGoodTable};
ghost use Rattle.hash_check.specs.Admission.{admission_refusal, IsRefusedBy, Says};
ghost use Rattle.hash_check.specs.FileRefusal.{first_file_refusal};
ghost use Rattle.hash_check.specs.Search.{compared};
ghost use Rattle.hash_check.specs.Soname.{has_bad_soname};

use crate::duplicates::unique_exports;
use crate::export::is_exported;
use crate::hash::elf_hash;
use crate::names::name_at;
use crate::refusal::AdmitRefusal;
use crate::search::{Found, search};
use crate::soname::is_library_name;
use crate::table::has_bad_hash_table;
use elf_dynamic::{Object, ObjectRefusal};
use std::alloc::Global;
use std::marker::Model;

/// A shared object that all tests accept, that exports no name twice, and whose hash table can be
/// trusted. In contracts, the value is the bytes of the object's file.
#[derive(Drop)]
pub struct Admitted<'a> {
    object: Object<'a>,
}

impl<'a> Model for Admitted<'a> {
    ghost use Rattle.std.specs.Prelude.{List, ℕ, ◌≡◌, None};
    ghost use Rattle.elf_dynamic.specs.Refusal.{first_refusal};
    ghost use Rattle.hash_check.specs.Admission.{admission_refusal};

    ghost Value = { List ℕ };

    ghost view = { λ a. a.object };

    ghost invariant = { λ a. (first_refusal a.object ≡ None)
        × (admission_refusal a.object ≡ None) };
}

impl<'a> Admitted<'a> {
    /// Admits an object, or returns the refusal of the first test that applies. Allocates about 52
    /// bytes for each symbol, and frees this memory before it returns. For a file of n bytes, the
    /// time is proportional to at most n log n, with one exception: an exported name is hashed
    /// unless the walks from all buckets meet the name's symbol, and if hashed names share bytes of
    /// the string table, the hashing takes time proportional to the sum of the names' lengths.
    #[tactic(auto, unfolding(crate::specs::Admission::admission_refusal))]
    pub fn admit(alloc: Global, object: Object<'a>) -> Result<Admitted<'a>, AdmitRefusal>
        ensures ok { OnOk result (admission_refusal object.entry ≡ None) }
        ensures same { IfOk result (λ admitted. admitted ≡ object.entry) }

        // Returns OutOfMemory only if admission may need memory.
        ensures refused { IfErr result (IsRefusedBy object.entry) }
        ensures says { IfErr result (Says object.entry) }
    {
        let Some(exports) = unique_exports(alloc, &object)? else {
            return Err(AdmitRefusal::DuplicateDefinition);
        };
        if has_bad_hash_table(alloc, &object, exports)? {
            return Err(AdmitRefusal::BadHashTable);
        }
        Ok(Admitted { object })
    }

    /// Makes the admitted object of a file that all tests accept. Repeats only the test E22. Takes
    /// as much time as `Object::of_accepted`.
    #[tactic(auto, using(crate::proofs::Reading::accepted_tests))]
    pub fn of_accepted(file: &'a [u8]) -> Admitted<'a>
        requires { first_file_refusal file.now ≡ None }
        ensures { result ≡ file.now }
    {
        Admitted {
            object: Object::of_accepted(file),
        }
    }

    /// The object that was admitted.
    #[tactic(auto, using(crate::proofs::Deciding::admitted_unique))]
    pub fn object(&self) -> &Object<'a>
        ensures same { result.now ≡ self.now }

        // All tests accept the file of an admitted object.
        ensures accepted { first_refusal self.now ≡ None }
        ensures admitted { admission_refusal self.now ≡ None }
        ensures unique { HasUniqueNames self.now }
        ensures table { HasGoodTable self.now }
    {
        &self.object
    }

    /// Returns the name of symbol number `i`, or the empty name if there is no such symbol.
    pub fn name_at(&self, i: u32) -> &'a [u8]
        ensures { result.now ≡ name_of self.now i }
    {
        name_at(self.object(), i)
    }

    /// Returns whether symbol number `i` is exported.
    pub fn is_exported(&self, i: u32) -> bool
        requires { i < length (symbols self.now) }
        ensures { result ≡ is_exported self.now i }
    {
        is_exported(self.object(), i)
    }

    /// Returns the name of the library: the object's SONAME. Refuses with E33 (BadSoname) if there
    /// is no SONAME, or if the SONAME can't be a library's name.
    #[tactic(auto, unfolding(crate::specs::Soname::has_bad_soname))]
    pub fn library_name(&self) -> Result<&'a [u8], ObjectRefusal>
        ensures ok { OnOk result (has_bad_soname self.now ≡ false) }
        ensures name { IfOk result (λ name. soname self.now ≡ Some name.now) }
        ensures refused { OnErr result (has_bad_soname self.now ≡ true) }
        ensures err { IfErr result (λ refusal. refusal ≡ BadSoname) }
    {
        match self.object.soname() {
            Some(name) if is_library_name(name) => Ok(name),
            _ => Err(ObjectRefusal::BadSoname),
        }
    }

    /// Returns the number of the symbol that is exported under `name`, if there is one. Hashes the
    /// name, and follows the walk from one bucket.
    pub fn find(&self, name: &[u8]) -> Option<u32>
        ensures { result ≡ definition_of self.now name.now }
    {
        self.find_hashed(name, elf_hash(name)).symbol
    }

    /// Searches for `name`, whose hash is `hash`, as `find` does. Also returns the number of
    /// symbols that were compared.
    pub fn find_hashed(&self, name: &[u8], hash: u32) -> Found
        requires { hash ≡ elf_hash name.now }
        ensures symbol { result.symbol ≡ definition_of self.now name.now }
        ensures compared { result.compared ≡ compared self.now name.now hash }
    {
        search(self.object(), name, hash)
    }
}
