// Reads the names that the dynamic section refers to (gABI chapter 5, `DT_NEEDED` and `DT_SONAME`).

ghost use Rattle.std.specs.Prelude.{◌≡◌, ◌<◌, length, None, Some, MatchOption, slice_get};
ghost use Rattle.elf_dynamic.specs.Strings.{string_table, needed, soname};

use crate::strings::{NeededNames, string_at};
use crate::tables::Tables;

impl<'a> Tables<'a> {
    /// The string table.
    pub(crate) fn string_table(&self) -> &'a [u8]
        ensures { result.now ≡ string_table self.now }
    {
        self.parts().strings
    }

    /// The number of libraries that the object needs.
    #[tactic(auto, using(crate::proofs::SymbolNumbers::needed_counted))]
    pub(crate) fn needed_count(&self) -> usize
        ensures { result ≡ length (needed self.now) }
    {
        self.parts().needed_count
    }

    /// Returns the names of the needed libraries, in the order of the `DT_NEEDED` entries.
    #[tactic(auto, unfolding(crate::specs::Strings::needed))]
    pub(crate) fn needed_names(&self) -> NeededNames<'a>
        ensures { result ≡ needed self.now }
    {
        NeededNames::new(self.string_table(), self.needed_offsets())
    }

    /// Returns the name of needed library number `i`.
    #[tactic(auto, using(crate::proofs::SymbolNumbers::needed_by_number))]
    pub(crate) fn needed(&self, i: usize) -> &'a [u8]
        requires { i < length (needed self.now) }
        ensures { slice_get (needed self.now) i ≡ Some result.now }
    {
        let mut left = i;
        for offset in self.needed_offsets() {
            if left == 0 {
                return string_at(self.string_table(), offset as usize);
            }
            left -= 1;
        }
        unreachable!()
    }

    /// Returns the object's own name, if it has one.
    #[tactic(auto, unfolding(crate::specs::Strings::soname))]
    pub(crate) fn soname(&self) -> Option<&'a [u8]>
        ensures { MatchOption result (soname self.now ≡ None)
            (λ name. soname self.now ≡ Some name.now) }
    {
        match self.parts().soname {
            Some(offset) => Some(string_at(self.string_table(), offset as usize)),
            None => None,
        }
    }
}
