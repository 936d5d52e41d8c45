// The statuses of calls: 0; two statuses that aren't refusals of a registry; and the numbers of
// refusals.
ghost use Rattle.std.specs.Prelude.{◌≡◌};
ghost use Rattle.c_answers.specs.Numbers.{store_number, bind_number, refusal_number};
ghost use Rattle.c_answers.specs.Numbers.{object_number, file_number, file_number_of};

use elf_dynamic::ObjectRefusal;
use hash_check::FileRefusal;
use image::BindRefusal;
use requests::Refusal;
use store::StoreRefusal;

/// The call succeeded.
pub(crate) const DONE: u32 = 0;

/// A buffer is too small.
pub(crate) const NO_ROOM: u32 = 1;

/// An argument doesn't have the form that the call requires.
pub(crate) const BAD_ARGUMENT: u32 = 2;

/// B3: a needed library isn't installed.
pub(crate) const MISSING: u32 = 103;

/// B5: a symbol is undefined.
pub(crate) const UNDEFINED: u32 = 105;

/// S11: memory was refused.
pub(crate) const OUT_OF_MEMORY: u32 = 311;

/// Returns the status of a refusal to open, format or upgrade: 300 plus the refusal's number.
pub(crate) fn store_status(refusal: StoreRefusal) -> u32
    ensures { result ≡ store_number refusal }
{
    match refusal {
        StoreRefusal::Device => 301,
        StoreRefusal::Reopen => 302,
        StoreRefusal::NotFormatted => 303,
        StoreRefusal::AlreadyFormatted => 304,
        StoreRefusal::Damaged => 305,
        StoreRefusal::BadGeometry => 306,
        StoreRefusal::Full => 307,
        StoreRefusal::Fragmented => 308,
        StoreRefusal::TooMany => 309,
        StoreRefusal::GenerationEnd => 310,
        StoreRefusal::OutOfMemory => OUT_OF_MEMORY,
        StoreRefusal::OldFormat => 312,
    }
}

/// Returns the status of a refused bind: 100 plus the refusal's number, or the status of S11 if
/// memory was refused.
fn bind_status(refusal: &BindRefusal) -> u32
    ensures { result ≡ bind_number refusal.now }
{
    match refusal {
        BindRefusal::Program(_) => 101,
        BindRefusal::BadBase => 102,
        BindRefusal::Missing { .. } => MISSING,
        BindRefusal::NoRoom => 104,
        BindRefusal::Undefined { .. } => UNDEFINED,
        BindRefusal::OutOfMemory => OUT_OF_MEMORY,
    }
}

/// Returns the status of a refusal: the refusal's number plus 200 for a refusal of a command, plus
/// 100 for a refusal of a bind, and plus 300 for a refusal of a disk.
pub(crate) fn refusal_status(refusal: &Refusal) -> u32
    ensures { result ≡ refusal_number refusal.now }
{
    match refusal {
        Refusal::Object(_) => 201,
        Refusal::AlreadyInstalled => 202,
        Refusal::NotInstalled => 203,
        Refusal::InPreloads => 204,
        Refusal::RepeatedPreload => 205,
        Refusal::TooManyPreloads => 206,
        Refusal::NoSlot => 207,
        Refusal::NoSuchBinder => 208,
        Refusal::Bind(refusal) => bind_status(refusal),
        Refusal::Device => 301,
        Refusal::Reopen => 302,
        Refusal::Damaged => 305,
        Refusal::Full => 307,
        Refusal::Fragmented => 308,
        Refusal::TooMany => 309,
        Refusal::GenerationEnd => 310,
        Refusal::OutOfMemory => OUT_OF_MEMORY,
    }
}

/// Returns the number n of the test En that refuses an object.
fn object_number(refusal: ObjectRefusal) -> u32
    ensures { result ≡ object_number refusal }
{
    match refusal {
        ObjectRefusal::TooShort => 1,
        ObjectRefusal::BadMagic => 2,
        ObjectRefusal::BadClass => 3,
        ObjectRefusal::BadData => 4,
        ObjectRefusal::BadVersion => 5,
        ObjectRefusal::BadOsAbi => 6,
        ObjectRefusal::BadType => 7,
        ObjectRefusal::BadMachine => 8,
        ObjectRefusal::BadHeaderSize => 9,
        ObjectRefusal::BadProgramHeaders => 10,
        ObjectRefusal::TlsSegment => 11,
        ObjectRefusal::BadSegment => 12,
        ObjectRefusal::TooLarge => 13,
        ObjectRefusal::SegmentOrder => 14,
        ObjectRefusal::BadDynamic => 15,
        ObjectRefusal::DuplicateTag => 16,
        ObjectRefusal::SymbolVersions => 17,
        ObjectRefusal::UnsupportedTag => 18,
        ObjectRefusal::NoHashTable => 19,
        ObjectRefusal::MissingTag => 20,
        ObjectRefusal::BadEntrySize => 21,
        ObjectRefusal::BadRange => 22,
        ObjectRefusal::BadString => 23,
        ObjectRefusal::CommonSymbol => 24,
        ObjectRefusal::TlsSymbol => 25,
        ObjectRefusal::IfuncSymbol => 26,
        ObjectRefusal::BadBinding => 27,
        ObjectRefusal::RelocationType(_) => 30,
        ObjectRefusal::RelocationSymbol => 31,
        ObjectRefusal::RelocationPlace => 32,
        ObjectRefusal::BadSoname => 33,
    }
}

/// Returns the number n of the test En that refuses a file.
pub(crate) fn file_number(refusal: FileRefusal) -> u32
    ensures { result ≡ file_number refusal }
{
    match refusal {
        FileRefusal::Object(refusal) => object_number(refusal),
        FileRefusal::DuplicateDefinition => 28,
        FileRefusal::BadHashTable => 29,
    }
}

/// Returns the number n of the test En that refuses the file, if `refusal` is about a refused file,
/// and otherwise 0.
pub(crate) fn file_refusal_number(refusal: &Refusal) -> u32
    ensures { result ≡ file_number_of refusal.now }
{
    match refusal {
        Refusal::Object(refusal) | Refusal::Bind(BindRefusal::Program(refusal)) => {
            file_number(*refusal)
        }
        _ => 0,
    }
}
