// The tags of the dynamic section that this crate reads (gABI chapter 5).

ghost use Rattle.std.specs.Prelude.{◌≡◌};
ghost use Rattle.elf_file.specs.Tag.{number_of};

/// The end of the dynamic section.
pub(crate) const DT_NULL: u64 = 0;
/// The offset, in the string table, of the name of a library that the object needs.
pub(crate) const DT_NEEDED: u64 = 1;
/// The size of the relocations at `DT_JMPREL`, in bytes.
pub(crate) const DT_PLTRELSZ: u64 = 2;
/// The address of the hash table.
pub(crate) const DT_HASH: u64 = 4;
/// The address of the string table.
pub(crate) const DT_STRTAB: u64 = 5;
/// The address of the symbol table.
pub(crate) const DT_SYMTAB: u64 = 6;
/// The address of the relocations.
pub(crate) const DT_RELA: u64 = 7;
/// The size of the relocations at `DT_RELA`, in bytes.
pub(crate) const DT_RELASZ: u64 = 8;
/// The size of one relocation, in bytes.
pub(crate) const DT_RELAENT: u64 = 9;
/// The size of the string table, in bytes.
pub(crate) const DT_STRSZ: u64 = 10;
/// The size of one symbol, in bytes.
pub(crate) const DT_SYMENT: u64 = 11;
/// The offset, in the string table, of the object's own name.
pub(crate) const DT_SONAME: u64 = 14;
/// The tag of an object for which lookups of symbols begin with the object itself.
pub(crate) const DT_SYMBOLIC: u64 = 16;
/// The address of relocations without addends.
pub(crate) const DT_REL: u64 = 17;
/// The kind of the relocations at `DT_JMPREL`.
pub(crate) const DT_PLTREL: u64 = 20;
/// The address of the relocations of the procedure linkage table.
pub(crate) const DT_JMPREL: u64 = 23;
/// Flags. Only the flag `DF_SYMBOLIC` is read.
pub(crate) const DT_FLAGS: u64 = 30;
/// The address of relocations in short form.
pub(crate) const DT_RELR: u64 = 36;
/// The address of the symbols' versions.
pub(crate) const DT_VERSYM: u64 = 0x6fff_fff0;
/// The address of the versions that the object defines.
pub(crate) const DT_VERDEF: u64 = 0x6fff_fffc;
/// The address of the versions that the object needs.
pub(crate) const DT_VERNEED: u64 = 0x6fff_fffe;

/// The bit of `DT_FLAGS` with the meaning of `DT_SYMBOLIC`.
pub(crate) const DF_SYMBOLIC: u64 = 0x2;

/// The size of a symbol, in bytes.
pub const SYMBOL_SIZE: u64 = 24;
/// The size of a relocation with an addend, in bytes.
pub const RELOCATION_SIZE: u64 = 24;

/// A tag that the crate reads.
#[derive(Clone, Copy, PartialEq, Eq)]
pub enum Tag {
    /// `DT_NEEDED`.
    Needed,
    /// `DT_PLTRELSZ`.
    PltRelSize,
    /// `DT_HASH`.
    Hash,
    /// `DT_STRTAB`.
    StrTab,
    /// `DT_SYMTAB`.
    SymTab,
    /// `DT_RELA`.
    Rela,
    /// `DT_RELASZ`.
    RelaSize,
    /// `DT_RELAENT`.
    RelaEntry,
    /// `DT_STRSZ`.
    StrSize,
    /// `DT_SYMENT`.
    SymEntry,
    /// `DT_SONAME`.
    SoName,
    /// `DT_SYMBOLIC`.
    Symbolic,
    /// `DT_REL`.
    Rel,
    /// `DT_PLTREL`.
    PltRel,
    /// `DT_JMPREL`.
    JmpRel,
    /// `DT_FLAGS`.
    Flags,
    /// `DT_RELR`.
    Relr,
    /// `DT_VERSYM`.
    VerSym,
    /// `DT_VERDEF`.
    VerDef,
    /// `DT_VERNEED`.
    VerNeed,
}

impl Tag {
    /// Returns the tag's number.
    pub fn number(self) -> u64
        ensures { result ≡ number_of self }
    {
        match self {
            Tag::Needed => DT_NEEDED,
            Tag::PltRelSize => DT_PLTRELSZ,
            Tag::Hash => DT_HASH,
            Tag::StrTab => DT_STRTAB,
            Tag::SymTab => DT_SYMTAB,
            Tag::Rela => DT_RELA,
            Tag::RelaSize => DT_RELASZ,
            Tag::RelaEntry => DT_RELAENT,
            Tag::StrSize => DT_STRSZ,
            Tag::SymEntry => DT_SYMENT,
            Tag::SoName => DT_SONAME,
            Tag::Symbolic => DT_SYMBOLIC,
            Tag::Rel => DT_REL,
            Tag::PltRel => DT_PLTREL,
            Tag::JmpRel => DT_JMPREL,
            Tag::Flags => DT_FLAGS,
            Tag::Relr => DT_RELR,
            Tag::VerSym => DT_VERSYM,
            Tag::VerDef => DT_VERDEF,
            Tag::VerNeed => DT_VERNEED,
        }
    }
}
