// A view of an accepted file.

ghost use Rattle.std.specs.Prelude.{◌≡◌, ◌<◌, length, Some, None, slice_get};
ghost use Rattle.std.specs.Prelude.{IfSome, MatchOption, MatchResult};
ghost use Rattle.elf_file.specs.Dynamic.{is_symbolic};
ghost use Rattle.elf_file.specs.ObjectAddresses.{addresses_of};
ghost use Rattle.elf_file.specs.Segment.{loads, contents};
ghost use Rattle.elf_dynamic.specs.Relocation.{relocations};
ghost use Rattle.elf_dynamic.specs.HashTable.{buckets, chains};
ghost use Rattle.elf_dynamic.specs.Strings.{string_table, needed, soname, name_of};
ghost use Rattle.elf_dynamic.specs.Symbol.{symbols};
ghost use Rattle.elf_dynamic.specs.Refusal.{first_refusal};

use crate::parts::Parts;
use crate::relocation::Relocation;
use crate::strings::NeededNames;
use crate::symbol::Symbol;
use crate::tables::Tables;
use elf_file::{Dynamic, LoadSegments, ObjectAddresses, ObjectRefusal, ProgramHeader};
use std::marker::Model;

/// A shared object that all tests accept. In contracts, the value is the bytes of the object's
/// file.
#[derive(Drop)]
pub struct Object<'a> {
    tables: Tables<'a>,
}

impl<'a> Model for Object<'a> {
    ghost use Rattle.std.specs.Prelude.{List, ℕ, ◌≡◌, None};
    ghost use Rattle.elf_dynamic.specs.Refusal.{first_refusal};

    ghost Value = { List ℕ };

    ghost view = { λ o. o.tables };

    ghost invariant = { λ o. first_refusal o.tables ≡ None };
}

impl<'a> Object<'a> {
    /// Reads a file, or returns the refusal of the first test that applies. Makes a few passes over
    /// the program headers and the relocations, and two over the dynamic section and the symbols.
    /// Allocates nothing and copies nothing.
    #[tactic(auto, using(crate::proofs::Stages::stages))]
    pub fn read(file: &'a [u8]) -> Result<Object<'a>, ObjectRefusal>
        ensures { MatchResult result
            (λ object. (first_refusal file.now ≡ None) × (object ≡ file.now))
            (λ refusal. first_refusal file.now ≡ Some refusal) }
    {
        let dynamic = Dynamic::read(file)?;
        let tables = Tables::read(&dynamic)?;
        tables.test_symbols()?;
        tables.test_relocations()?;
        Ok(Object { tables })
    }

    /// Makes the view of a file that all tests accept. Repeats only the test of the ranges of the
    /// tables (E22), because this test finds the tables. Makes a few passes over the program
    /// headers, and one over the dynamic section.
    #[tactic(auto, using(crate::proofs::Accepted::accepted_parts))]
    pub fn of_accepted(file: &'a [u8]) -> Object<'a>
        requires { first_refusal file.now ≡ None }
        ensures { result ≡ file.now }
    {
        let dynamic = Dynamic::of_accepted(file);
        let Some(parts) = Parts::find(&dynamic) else {
            unreachable!()
        };
        Object {
            tables: Tables::new(&dynamic, parts),
        }
    }

    /// The number of PT_LOADs. Makes one pass over the program headers.
    pub fn segment_count(&self) -> usize
        ensures count { result ≡ length (loads self.now) }

        // All tests accept an object's file.
        ensures accepted { first_refusal self.now ≡ None }
    {
        self.tables.segments().count()
    }

    /// Returns PT_LOAD number `i`. The PT_LOADs are in the order of the program headers, which is
    /// also the order of their addresses. Makes one pass over the program headers up to this
    /// PT_LOAD. If you need all PT_LOADs, call `segments`, which makes only one pass.
    pub fn segment(&self, i: usize) -> ProgramHeader
        requires { i < length (loads self.now) }
        ensures segment { slice_get (loads self.now) i ≡ Some result }
        ensures accepted { first_refusal self.now ≡ None }
    {
        self.tables.segments().nth(i)
    }

    /// Returns the PT_LOADs, in the order of the program headers. Reading all PT_LOADs makes one
    /// pass over the program headers.
    pub fn segments(&self) -> LoadSegments<'a>
        ensures segments { result ≡ loads self.now }
        ensures accepted { first_refusal self.now ≡ None }
    {
        self.tables.segments().iter()
    }

    /// Returns the bytes of the file that are loaded to the beginning of PT_LOAD number `i`:
    /// `p_filesz` bytes from `p_offset`. Makes one pass over the program headers up to this
    /// PT_LOAD. If you need the bytes of all PT_LOADs, pass each PT_LOAD of `segments` to
    /// `contents_of`.
    pub fn contents(&self, i: usize) -> &'a [u8]
        requires { i < length (loads self.now) }
        ensures contents { IfSome (slice_get (loads self.now) i)
            (λ segment. result.now ≡ contents self.now segment) }

        // The file has all of these bytes.
        ensures whole { IfSome (slice_get (loads self.now) i)
            (λ segment. length result.now ≡ segment.file_size) }
        ensures accepted { first_refusal self.now ≡ None }
    {
        self.contents_of(self.segment(i))
    }

    /// Returns the bytes of the file that are loaded to the beginning of a PT_LOAD. For any other
    /// program header, returns those of its bytes that the file has. Takes constant time.
    pub fn contents_of(&self, segment: ProgramHeader) -> &'a [u8]
        ensures contents { result.now ≡ contents self.now segment }
        ensures accepted { first_refusal self.now ≡ None }
    {
        let file = self.tables.file();
        let length = file.len() as u64;
        let start = segment.offset.min(length);
        let size = segment.file_size.min(length - start);
        &file[start as usize..(start + size) as usize]
    }

    /// Returns the addresses of the program headers, of the dynamic section, and of the entry.
    /// Makes three passes over the program headers.
    pub fn addresses(&self) -> ObjectAddresses
        ensures { result ≡ addresses_of self.now }
    {
        self.tables.segments().addresses()
    }

    /// The number of relocations.
    pub fn rela_count(&self) -> usize
        ensures count { result ≡ length (relocations self.now) }
        ensures accepted { first_refusal self.now ≡ None }
    {
        self.tables.relocation_count()
    }

    /// Returns relocation number `i`. The relocations of `DT_RELA` come first, then those of
    /// `DT_JMPREL`.
    pub fn rela(&self, i: usize) -> Relocation
        requires { i < length (relocations self.now) }
        ensures relocation { slice_get (relocations self.now) i ≡ Some result }
        ensures accepted { first_refusal self.now ≡ None }
    {
        self.tables.relocation(i)
    }

    /// The number of libraries that the object needs.
    pub fn needed_count(&self) -> usize
        ensures count { result ≡ length (needed self.now) }
        ensures accepted { first_refusal self.now ≡ None }
    {
        self.tables.needed_count()
    }

    /// Returns the name of needed library number `i`, in the order of the dynamic section. Makes
    /// one pass over this section up to the library's entry. If you need all names, call
    /// `needed_names`, which makes only one pass.
    pub fn needed(&self, i: usize) -> &'a [u8]
        requires { i < length (needed self.now) }
        ensures name { slice_get (needed self.now) i ≡ Some result.now }
        ensures accepted { first_refusal self.now ≡ None }
    {
        self.tables.needed(i)
    }

    /// Returns the names of the needed libraries, in the order of the dynamic section. Reading all
    /// names makes one pass over this section.
    pub fn needed_names(&self) -> NeededNames<'a>
        ensures names { result ≡ needed self.now }
        ensures accepted { first_refusal self.now ≡ None }
    {
        self.tables.needed_names()
    }

    /// Returns the object's own name (SONAME), if it has one.
    pub fn soname(&self) -> Option<&'a [u8]>
        ensures name { MatchOption result (soname self.now ≡ None)
            (λ name. soname self.now ≡ Some name.now) }
        ensures accepted { first_refusal self.now ≡ None }
    {
        self.tables.soname()
    }

    /// Returns whether a lookup of a symbol to which the object refers begins with the object
    /// itself: `DT_SYMBOLIC` is present, or `DT_FLAGS` has the bit `DF_SYMBOLIC` (gABI chapter 5).
    /// Takes constant time.
    pub fn symbolic(&self) -> bool
        ensures symbolic { result ≡ is_symbolic self.now }
        ensures accepted { first_refusal self.now ≡ None }
    {
        self.tables.parts().symbolic
    }

    /// The string table. The field `name` of a symbol is the offset of the symbol's name in this
    /// table.
    pub fn string_table(&self) -> &'a [u8]
        ensures table { result.now ≡ string_table self.now }
        ensures accepted { first_refusal self.now ≡ None }
    {
        self.tables.string_table()
    }

    /// The number of symbols, including the symbol with index 0. It is also the number of chain
    /// words.
    pub fn symbol_count(&self) -> u32
        ensures count { result ≡ length (symbols self.now) }
        ensures chains { result ≡ length (chains self.now) }
        ensures accepted { first_refusal self.now ≡ None }
    {
        self.tables.symbol_count()
    }

    /// Returns the symbol with index `i`.
    pub fn symbol(&self, i: u32) -> Symbol
        requires { i < length (symbols self.now) }
        ensures symbol { slice_get (symbols self.now) i ≡ Some result }
        ensures accepted { first_refusal self.now ≡ None }
    {
        self.tables.symbol(i)
    }

    /// Returns the name of the symbol with index `i`. The name of symbol 0 is empty. Searches for
    /// the name's end, so the time is proportional to the name's length.
    pub fn name_of(&self, i: u32) -> &'a [u8]
        requires { i < length (symbols self.now) }
        ensures name { result.now ≡ name_of self.now i }
        ensures accepted { first_refusal self.now ≡ None }
    {
        self.tables.name_of(i)
    }

    /// The number of buckets of the hash table.
    pub fn bucket_count(&self) -> u32
        ensures count { result ≡ length (buckets self.now) }
        ensures accepted { first_refusal self.now ≡ None }
    {
        self.tables.bucket_count()
    }

    /// Returns the word of bucket `i`: the index of the first symbol of the bucket's chain.
    pub fn bucket(&self, i: u32) -> u32
        requires { i < length (buckets self.now) }
        ensures word { slice_get (buckets self.now) i ≡ Some result }
        ensures accepted { first_refusal self.now ≡ None }
    {
        self.tables.bucket(i)
    }

    /// Returns the chain word of symbol `i`: the index of the next symbol of its chain, or 0 if
    /// symbol `i` is the last one.
    pub fn chain(&self, i: u32) -> u32
        requires { i < length (chains self.now) }
        ensures word { slice_get (chains self.now) i ≡ Some result }
        ensures accepted { first_refusal self.now ≡ None }
    {
        self.tables.chain(i)
    }
}
