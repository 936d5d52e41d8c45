// Reads and tests the relocations of a file (gABI chapter 4; psABI, relocation types).

ghost use Rattle.std.specs.Prelude.{◌≡◌, ◌<◌, length, None, Some, MatchResult, slice_get};
ghost use Rattle.elf_dynamic.specs.Refusal.{relocation_refusal};
ghost use Rattle.elf_dynamic.specs.Relocation.{rela_table, jmprel_table, relocations};
ghost use Rattle.elf_dynamic.specs.Relocation.{first_unsupported_type, has_bad_relocation_symbol};
ghost use Rattle.elf_dynamic.specs.Relocation.{has_bad_place};

use crate::place::has_misplaced_in;
use crate::relocation::{
    Relocation, first_unsupported_in, has_bad_relocation_symbol_in, nth_relocation,
    relocation_count,
};
use crate::tables::Tables;
use elf_file::ObjectRefusal;

impl<'a> Tables<'a> {
    /// The table of `DT_RELA`.
    fn rela(&self) -> &'a [u8]
        ensures { result.now ≡ rela_table self.now }
    {
        self.parts().rela
    }

    /// The table of `DT_JMPREL`.
    fn jmprel(&self) -> &'a [u8]
        ensures { result.now ≡ jmprel_table self.now }
    {
        self.parts().jmprel
    }

    /// The number of relocations.
    #[tactic(auto, unfolding(crate::specs::Relocation::relocations))]
    pub(crate) fn relocation_count(&self) -> usize
        ensures { result ≡ length (relocations self.now) }
    {
        relocation_count(self.rela()) + relocation_count(self.jmprel())
    }

    /// Returns relocation number `i`.
    #[tactic(auto, using(crate::proofs::TableEntries::length_relocations_in))]
    pub(crate) fn relocation(&self, i: usize) -> Relocation
        requires { i < length (relocations self.now) }
        ensures { slice_get (relocations self.now) i ≡ Some result }
    {
        let (rela, jmprel) = (self.rela(), self.jmprel());
        let count = relocation_count(rela);
        if i < count {
            nth_relocation(rela, i)
        } else {
            nth_relocation(jmprel, i - count)
        }
    }

    /// Returns the type of the first relocation whose type isn't supported, if there is one.
    fn first_unsupported_type(&self) -> Option<u32>
        ensures { result ≡ first_unsupported_type self.now }
    {
        match first_unsupported_in(self.rela()) {
            Some(kind) => Some(kind),
            None => first_unsupported_in(self.jmprel()),
        }
    }

    /// Returns whether a relocation uses a symbol that the file doesn't have.
    fn has_bad_relocation_symbol(&self) -> bool
        ensures { result ≡ has_bad_relocation_symbol self.now }
    {
        let count = self.symbol_count();
        has_bad_relocation_symbol_in(self.rela(), count)
            || has_bad_relocation_symbol_in(self.jmprel(), count)
    }

    /// Returns whether a relocation writes bytes that don't lie in the memory of one PT_LOAD.
    fn has_bad_place(&self) -> bool
        ensures { result ≡ has_bad_place self.now }
    {
        let segments = self.segments().indexed();
        has_misplaced_in(&segments, self.rela()) || has_misplaced_in(&segments, self.jmprel())
    }

    /// Tests the relocations: E30 to E32.
    #[tactic(auto, unfolding(crate::specs::Refusal::relocation_refusal))]
    pub(crate) fn test_relocations(&self) -> Result<(), ObjectRefusal>
        ensures { MatchResult result (λ _. relocation_refusal self.now ≡ None)
            (λ refusal. relocation_refusal self.now ≡ Some refusal) }
    {
        if let Some(kind) = self.first_unsupported_type() {
            return Err(ObjectRefusal::RelocationType(kind));
        }
        if self.has_bad_relocation_symbol() {
            return Err(ObjectRefusal::RelocationSymbol);
        }
        if self.has_bad_place() {
            return Err(ObjectRefusal::RelocationPlace);
        }
        Ok(())
    }
}
