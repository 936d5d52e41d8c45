// Reads and tests the symbols of a file (gABI chapter 4, symbol table).

ghost use Rattle.std.specs.Prelude.{◌≡◌, ◌<◌, length, None, Some, MatchResult, slice_get};
ghost use Rattle.elf_dynamic.specs.HashTable.{chain_count, buckets, chains};
ghost use Rattle.elf_dynamic.specs.Strings.{name_of};
ghost use Rattle.elf_dynamic.specs.Symbol.{symbols, has_common_symbol, has_tls_symbol};
ghost use Rattle.elf_dynamic.specs.Symbol.{has_ifunc_symbol, has_bad_binding};
ghost use Rattle.elf_dynamic.specs.Refusal.{symbol_refusal};

use crate::hash_table::word;
use crate::strings::string_at;
use crate::symbol::{
    Symbol, has_badly_bound_in, has_common_in, has_ifunc_in, has_refused_in, has_tls_in, nth_symbol,
};
use crate::tables::Tables;
use elf_file::ObjectRefusal;

impl<'a> Tables<'a> {
    /// Tests the symbols: E24 to E27. First makes one pass for all four tests. Makes the tests one
    /// after the other only if a symbol fails this pass.
    #[tactic(auto, using(crate::proofs::NoneRefused::none_refused))]
    pub(crate) fn test_symbols(&self) -> Result<(), ObjectRefusal>
        ensures { MatchResult result (λ _. symbol_refusal self.now ≡ None)
            (λ refusal. symbol_refusal self.now ≡ Some refusal) }
    {
        let table = self.parts().symbols;
        if !has_refused_in(table) {
            return Ok(());
        }
        if has_common_in(table) {
            return Err(ObjectRefusal::CommonSymbol);
        }
        if has_tls_in(table) {
            return Err(ObjectRefusal::TlsSymbol);
        }
        if has_ifunc_in(table) {
            return Err(ObjectRefusal::IfuncSymbol);
        }
        if has_badly_bound_in(table) {
            return Err(ObjectRefusal::BadBinding);
        }
        Ok(())
    }

    /// The number of symbols, including the symbol with index 0.
    #[tactic(auto, using(crate::proofs::SymbolNumbers::symbols_counted))]
    pub(crate) fn symbol_count(&self) -> u32
        ensures count { result ≡ length (symbols self.now) }
        ensures words { result ≡ length (chains self.now) }
        ensures chains { result ≡ chain_count self.now }
    {
        self.parts().hash.chain_count
    }

    /// Returns the symbol with index `i`.
    #[tactic(auto, using(crate::proofs::SymbolNumbers::symbol_numbered))]
    pub(crate) fn symbol(&self, i: u32) -> Symbol
        requires { i < length (symbols self.now) }
        ensures { slice_get (symbols self.now) i ≡ Some result }
    {
        nth_symbol(self.parts().symbols, i as usize)
    }

    /// Returns the name of the symbol with index `i`. The name of symbol 0 is empty.
    #[tactic(auto, unfolding(crate::specs::Strings::name_of))]
    pub(crate) fn name_of(&self, i: u32) -> &'a [u8]
        requires { i < length (symbols self.now) }
        ensures { result.now ≡ name_of self.now i }
    {
        if i == 0 {
            return &[];
        }
        string_at(self.parts().strings, self.symbol(i).name as usize)
    }

    /// The number of buckets.
    #[tactic(auto, using(crate::proofs::SymbolNumbers::buckets_counted))]
    pub(crate) fn bucket_count(&self) -> u32
        ensures { result ≡ length (buckets self.now) }
    {
        self.parts().hash.bucket_count
    }

    /// Returns the word of bucket `i`: the index of the first symbol of the bucket's chain.
    #[tactic(auto, using(crate::proofs::SymbolNumbers::bucket_numbered))]
    pub(crate) fn bucket(&self, i: u32) -> u32
        requires { i < length (buckets self.now) }
        ensures { slice_get (buckets self.now) i ≡ Some result }
    {
        word(self.parts().hash.bytes, 2 + i as usize)
    }

    /// Returns the chain word of symbol `i`: the index of the next symbol of its chain, or 0 if
    /// symbol `i` is the last one.
    #[tactic(auto, using(crate::proofs::SymbolNumbers::chain_numbered))]
    pub(crate) fn chain(&self, i: u32) -> u32
        requires { i < length (chains self.now) }
        ensures { slice_get (chains self.now) i ≡ Some result }
    {
        let hash = self.parts().hash;
        word(hash.bytes, 2 + (hash.bucket_count as usize + i as usize))
    }
}
