// Reads a symbol, and interprets its fields (gABI chapter 4, symbol table).

ghost use Rattle.std.specs.Prelude.{◌≡◌, ◌<◌, ◌/◌, length, drop, nat_le};
ghost use Rattle.std.specs.List.{list_any};
ghost use Rattle.elf_dynamic.specs.Symbol.{binding_of, type_of, visibility_of};
ghost use Rattle.elf_dynamic.specs.Symbol.{nth_symbol, symbols_in};
ghost use Rattle.elf_dynamic.specs.Symbol.{is_local, is_global, is_weak, is_defined, is_absolute};
ghost use Rattle.elf_dynamic.specs.Symbol.{is_function_or_object, is_visible, is_hidden};
ghost use Rattle.elf_dynamic.specs.Symbol.{has_default_visibility};
ghost use Rattle.elf_dynamic.specs.Symbol.{is_common, is_tls, is_ifunc, is_badly_bound};
ghost use Rattle.elf_dynamic.specs.inside.Symbols.{is_refused};

use elf_file::{SYMBOL_SIZE, u16_at, u32_at, u64_at};

/// A symbol of the file (gABI chapter 4, `Elf64_Sym`).
#[derive(Clone, Copy, PartialEq, Eq)]
pub struct Symbol {
    /// `st_name`: the offset of the symbol's name in the string table, in bytes.
    pub name: u32,
    /// `st_info`: the symbol's binding and type.
    pub info: u8,
    /// `st_other`: the symbol's visibility.
    pub other: u8,
    /// `st_shndx`: the index of the section in which the symbol is defined, or one of the `SHN_`
    /// numbers.
    pub section: u16,
    /// `st_value`: an address to which the base hasn't been added, or an absolute value.
    pub value: u64,
    /// `st_size`, in bytes.
    pub size: u64,
}

impl Symbol {
    /// The symbol's binding, one of the `STB_` numbers.
    pub fn binding(self) -> u8
        ensures { result ≡ binding_of self }
    {
        self.info / 16
    }

    /// The symbol's type, one of the `STT_` numbers.
    pub fn kind(self) -> u8
        ensures { result ≡ type_of self }
    {
        self.info % 16
    }

    /// The symbol's visibility, one of the `STV_` numbers.
    pub fn visibility(self) -> u8
        ensures { result ≡ visibility_of self }
    {
        self.other % 4
    }

    /// Returns whether the symbol belongs only to its object (`STB_LOCAL`).
    pub fn is_local(self) -> bool
        ensures { result ≡ is_local self }
    {
        self.binding() == STB_LOCAL
    }

    /// Returns whether the symbol is shared by all objects (`STB_GLOBAL`).
    pub fn is_global(self) -> bool
        ensures { result ≡ is_global self }
    {
        self.binding() == STB_GLOBAL
    }

    /// Returns whether the symbol is shared by all objects, and has the value 0 if no definition is
    /// found (`STB_WEAK`).
    pub fn is_weak(self) -> bool
        ensures { result ≡ is_weak self }
    {
        self.binding() == STB_WEAK
    }

    /// Returns whether the symbol is defined in its object: its section isn't `SHN_UNDEF`.
    pub fn is_defined(self) -> bool
        ensures { result ≡ is_defined self }
    {
        self.section != SHN_UNDEF
    }

    /// Returns whether the symbol's value is absolute: no base is added to it (`SHN_ABS`).
    pub fn is_absolute(self) -> bool
        ensures { result ≡ is_absolute self }
    {
        self.section == SHN_ABS
    }

    /// Returns whether the symbol is a function or an object, or has no type.
    pub fn is_function_or_object(self) -> bool
        ensures { result ≡ is_function_or_object self }
    {
        let kind = self.kind();
        kind == STT_NOTYPE || kind == STT_OBJECT || kind == STT_FUNC
    }

    /// Returns whether other objects can see the symbol and replace it (`STV_DEFAULT`).
    pub fn has_default_visibility(self) -> bool
        ensures { result ≡ has_default_visibility self }
    {
        self.visibility() == STV_DEFAULT
    }

    /// Returns whether other objects can see the symbol (`STV_DEFAULT`, `STV_PROTECTED`).
    pub fn is_visible(self) -> bool
        ensures { result ≡ is_visible self }
    {
        self.has_default_visibility() || self.visibility() == STV_PROTECTED
    }

    /// Returns whether the symbol is hidden from other objects (`STV_HIDDEN`, `STV_INTERNAL`).
    pub fn is_hidden(self) -> bool
        ensures { result ≡ is_hidden self }
    {
        let visibility = self.visibility();
        visibility == STV_HIDDEN || visibility == STV_INTERNAL
    }
}

/// The binding of a symbol that belongs only to its object.
const STB_LOCAL: u8 = 0;
/// The binding of a symbol that is shared by all objects.
const STB_GLOBAL: u8 = 1;
/// The binding of a symbol that is shared by all objects, and may be undefined.
const STB_WEAK: u8 = 2;
/// The type of a symbol without a type.
const STT_NOTYPE: u8 = 0;
/// The type of data.
const STT_OBJECT: u8 = 1;
/// The type of a function.
const STT_FUNC: u8 = 2;
/// The type of a common block.
const STT_COMMON: u8 = 5;
/// The type of thread-local data.
const STT_TLS: u8 = 6;
/// The type of an indirect function.
const STT_GNU_IFUNC: u8 = 10;
/// The visibility of a symbol that other objects can see and replace.
const STV_DEFAULT: u8 = 0;
/// The visibility of a symbol that other objects can't see, and whose address they can't get in any
/// other way.
const STV_INTERNAL: u8 = 1;
/// The visibility of a symbol that other objects can't see.
const STV_HIDDEN: u8 = 2;
/// The visibility of a symbol that other objects can see, but can't replace within its own object.
const STV_PROTECTED: u8 = 3;
/// The section index of a symbol that isn't defined in the object.
const SHN_UNDEF: u16 = 0;
/// The section index of a symbol that belongs to no section: its value is absolute.
const SHN_ABS: u16 = 0xfff1;
/// The section index of a common block.
const SHN_COMMON: u16 = 0xfff2;

/// Returns symbol number `i` of `table`.
#[tactic(auto, unfolding(crate::specs::Symbol::nth_symbol))]
pub(crate) fn nth_symbol(table: &[u8], i: usize) -> Symbol
    requires { i < length table.now / 24 }
    ensures { result ≡ nth_symbol table.now i }
{
    let at = SYMBOL_SIZE as usize * i;
    Symbol {
        name: u32_at(table, at),
        info: table[at + 4],
        other: table[at + 5],
        section: u16_at(table, at + 6),
        value: u64_at(table, at + 8),
        size: u64_at(table, at + 16),
    }
}

fn is_common(symbol: Symbol) -> bool
    ensures { result ≡ is_common symbol }
{
    symbol.section == SHN_COMMON || symbol.kind() == STT_COMMON
}

fn is_tls(symbol: Symbol) -> bool
    ensures { result ≡ is_tls symbol }
{
    symbol.kind() == STT_TLS
}

fn is_ifunc(symbol: Symbol) -> bool
    ensures { result ≡ is_ifunc symbol }
{
    symbol.kind() == STT_GNU_IFUNC
}

fn is_badly_bound(symbol: Symbol) -> bool
    ensures { result ≡ is_badly_bound symbol }
{
    !symbol.is_local() && !symbol.is_global() && !symbol.is_weak()
}

/// Returns whether one of the tests E24 to E27 refuses `symbol`.
#[tactic(auto, unfolding(crate::specs::inside::Symbols::is_refused))]
fn is_refused(symbol: Symbol) -> bool
    ensures { result ≡ is_refused symbol }
{
    is_common(symbol) || is_tls(symbol) || is_ifunc(symbol) || is_badly_bound(symbol)
}

/// Returns whether one of the tests E24 to E27 refuses a symbol in `table`, except the first
/// symbol. Makes one pass over the symbols, instead of one pass for each test.
pub(crate) fn has_refused_in(table: &[u8]) -> bool
    ensures { result ≡ list_any is_refused (drop 1 (symbols_in table.now)) }
{
    (1..table.len() / SYMBOL_SIZE as usize).any(|i| is_refused(nth_symbol(table, i)))
}

/// Returns whether `table` has a common symbol, except the first symbol.
pub(crate) fn has_common_in(table: &[u8]) -> bool
    ensures { result ≡ list_any is_common (drop 1 (symbols_in table.now)) }
{
    (1..table.len() / SYMBOL_SIZE as usize).any(|i| is_common(nth_symbol(table, i)))
}

/// Returns whether `table` has a thread-local symbol, except the first symbol.
pub(crate) fn has_tls_in(table: &[u8]) -> bool
    ensures { result ≡ list_any is_tls (drop 1 (symbols_in table.now)) }
{
    (1..table.len() / SYMBOL_SIZE as usize).any(|i| is_tls(nth_symbol(table, i)))
}

/// Returns whether `table` has an indirect function, except the first symbol.
pub(crate) fn has_ifunc_in(table: &[u8]) -> bool
    ensures { result ≡ list_any is_ifunc (drop 1 (symbols_in table.now)) }
{
    (1..table.len() / SYMBOL_SIZE as usize).any(|i| is_ifunc(nth_symbol(table, i)))
}

/// Returns whether `table` has a symbol, except the first one, whose binding is neither local,
/// global nor weak.
pub(crate) fn has_badly_bound_in(table: &[u8]) -> bool
    ensures { result ≡ list_any is_badly_bound (drop 1 (symbols_in table.now)) }
{
    (1..table.len() / SYMBOL_SIZE as usize).any(|i| is_badly_bound(nth_symbol(table, i)))
}

/// Returns whether `table` has a symbol, except the first one, whose name has an offset of `limit`
/// or more.
pub(crate) fn has_name_from(table: &[u8], limit: u64) -> bool
    ensures { result ≡ list_any (λ s. nat_le limit s.name) (drop 1 (symbols_in table.now)) }
{
    (1..table.len() / SYMBOL_SIZE as usize).any(|i| u64::from(nth_symbol(table, i).name) >= limit)
}
