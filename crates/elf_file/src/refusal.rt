/// The reason why a file is refused. The variants are in the order of the tests.
#[derive(Clone, Copy, Debug, PartialEq, Eq)]
pub enum ObjectRefusal {
    /// E1: the file is shorter than a file header (64 bytes).
    TooShort,
    /// E2: the file doesn't begin with 7f 45 4c 46.
    BadMagic,
    /// E3: the file isn't of the 64-bit class.
    BadClass,
    /// E4: the file isn't little endian.
    BadData,
    /// E5: the file isn't of the current version.
    BadVersion,
    /// E6: the file is neither for System V nor for GNU.
    BadOsAbi,
    /// E7: the file isn't a shared object.
    BadType,
    /// E8: the file isn't for x86-64.
    BadMachine,
    /// E9: `e_ehsize` isn't 64, or `e_phentsize` isn't 56.
    BadHeaderSize,
    /// E10: the number of program headers is 0 or 0xffff, or the program headers run past the
    /// file's end.
    BadProgramHeaders,
    /// E11: the file has a segment of thread-local data.
    TlsSegment,
    /// E12: the file has no PT_LOAD, or a PT_LOAD has a wrong file size, file end or alignment.
    BadSegment,
    /// E13: the file is longer than 16 MiB, or the memory of a PT_LOAD ends above address 64 MiB.
    TooLarge,
    /// E14: a PT_LOAD begins before the end of the one before it.
    SegmentOrder,
    /// E15: the file has no dynamic section or several, or the section runs past the file's end or
    /// has no DT_NULL.
    BadDynamic,
    /// E16: a tag that may be present only once is present more often.
    DuplicateTag,
    /// E17: the file has symbol versions.
    SymbolVersions,
    /// E18: the file has relocations without addends, or in short form.
    UnsupportedTag,
    /// E19: the file has no SYSV hash table.
    NoHashTable,
    /// E20: a tag that has to be present is missing.
    MissingTag,
    /// E21: the size of symbols or the size or kind of relocations is wrong, or a table ends within
    /// a relocation.
    BadEntrySize,
    /// E22: a table doesn't lie in the file bytes of one PT_LOAD.
    BadRange,
    /// E23: the string table is empty or doesn't end with a 0, or a name isn't in it.
    BadString,
    /// E24: the file has a common symbol.
    CommonSymbol,
    /// E25: the file has a thread-local symbol.
    TlsSymbol,
    /// E26: the file has an indirect function.
    IfuncSymbol,
    /// E27: a symbol's binding is neither local, global nor weak.
    BadBinding,
    /// E30: a relocation has an unsupported type, which is the given number.
    RelocationType(u32),
    /// E31: a relocation names a symbol that doesn't exist.
    RelocationSymbol,
    /// E32: a relocation writes bytes that don't lie in the memory of one PT_LOAD.
    RelocationPlace,
    /// E33: a library's file has no SONAME that may be a library's name.
    BadSoname,
}
