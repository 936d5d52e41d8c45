// The file header and its tests (gABI chapter 4, elf(5)).

ghost use Rattle.std.specs.Prelude.{◌≡◌, ◌≤◌, ◌<◌, length};
ghost use Rattle.elf_file.specs.Header.{is_too_short, has_bad_magic, has_bad_class, has_bad_data};
ghost use Rattle.elf_file.specs.Header.{has_bad_version, has_bad_os_abi, has_bad_type};
ghost use Rattle.elf_file.specs.Header.{has_bad_machine, has_bad_header_size};
ghost use Rattle.elf_file.specs.Header.{has_bad_program_headers};

use crate::number::{u16_at, u32_at, u64_at};

/// The first four bytes of an ELF file, as a little endian number.
const ELF_MAGIC: u32 = 0x464c_457f;
/// The class of 64-bit files.
const ELFCLASS64: u8 = 2;
/// The encoding of little endian files.
const ELFDATA2LSB: u8 = 1;
/// The only version of the format.
const EV_CURRENT: u8 = 1;
/// The OS ABI of files for System V.
const ELFOSABI_SYSV: u8 = 0;
/// The OS ABI of files for GNU.
const ELFOSABI_GNU: u8 = 3;
/// The type of a shared object.
const ET_DYN: u16 = 3;
/// The machine x86-64.
const EM_X86_64: u16 = 62;
/// The value of `e_phnum` if the file has the number of program headers elsewhere.
const PN_XNUM: u16 = 0xffff;
/// The size of a file header, in bytes.
const FILE_HEADER_SIZE: u16 = 64;
/// The size of a program header, in bytes.
pub(crate) const PROGRAM_HEADER_SIZE: u16 = 56;

pub(crate) fn is_too_short(file: &[u8]) -> bool
    ensures { result ≡ is_too_short file.now }
{
    file.len() < usize::from(FILE_HEADER_SIZE)
}

pub(crate) fn has_bad_magic(file: &[u8]) -> bool
    requires { 64 ≤ length file.now }
    ensures { result ≡ has_bad_magic file.now }
{
    u32_at(file, 0) != ELF_MAGIC
}

pub(crate) fn has_bad_class(file: &[u8]) -> bool
    requires { 64 ≤ length file.now }
    ensures { result ≡ has_bad_class file.now }
{
    file[4] != ELFCLASS64
}

pub(crate) fn has_bad_data(file: &[u8]) -> bool
    requires { 64 ≤ length file.now }
    ensures { result ≡ has_bad_data file.now }
{
    file[5] != ELFDATA2LSB
}

pub(crate) fn has_bad_version(file: &[u8]) -> bool
    requires { 64 ≤ length file.now }
    ensures { result ≡ has_bad_version file.now }
{
    file[6] != EV_CURRENT || u32_at(file, 20) != u32::from(EV_CURRENT)
}

pub(crate) fn has_bad_os_abi(file: &[u8]) -> bool
    requires { 64 ≤ length file.now }
    ensures { result ≡ has_bad_os_abi file.now }
{
    file[7] != ELFOSABI_SYSV && file[7] != ELFOSABI_GNU
}

pub(crate) fn has_bad_type(file: &[u8]) -> bool
    requires { 64 ≤ length file.now }
    ensures { result ≡ has_bad_type file.now }
{
    u16_at(file, 16) != ET_DYN
}

pub(crate) fn has_bad_machine(file: &[u8]) -> bool
    requires { 64 ≤ length file.now }
    ensures { result ≡ has_bad_machine file.now }
{
    u16_at(file, 18) != EM_X86_64
}

pub(crate) fn has_bad_header_size(file: &[u8]) -> bool
    requires { 64 ≤ length file.now }
    ensures { result ≡ has_bad_header_size file.now }
{
    u16_at(file, 52) != FILE_HEADER_SIZE || u16_at(file, 54) != PROGRAM_HEADER_SIZE
}

pub(crate) fn has_bad_program_headers(file: &[u8]) -> bool
    requires { 64 ≤ length file.now }
    ensures { result ≡ has_bad_program_headers file.now }
{
    let count = u16_at(file, 56);
    let size = u128::from(PROGRAM_HEADER_SIZE) * u128::from(count);
    let end = u128::from(u64_at(file, 32)) + size;
    count == 0 || count == PN_XNUM || (file.len() as u128) < end
}
