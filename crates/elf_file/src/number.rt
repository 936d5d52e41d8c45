// Reads numbers in a file, little endian (gABI chapter 4, ELFDATA2LSB).

ghost use Rattle.std.specs.Prelude.{◌≡◌, ◌+◌, ◌≤◌, length};
ghost use Rattle.elf_file.specs.Number.{number_at};

use byteorder::{ByteOrder, LittleEndian};

/// Returns the number in the two bytes at offset `at`.
#[tactic(auto, unfolding(crate::specs::Number::number_at))]
pub fn u16_at(file: &[u8], at: usize) -> u16
    requires { at + 2 ≤ length file.now }
    ensures { result ≡ number_at 2 file.now at }
{
    LittleEndian::read_u16(&file[at..])
}

/// Returns the number in the four bytes at offset `at`.
#[tactic(auto, unfolding(crate::specs::Number::number_at))]
pub fn u32_at(file: &[u8], at: usize) -> u32
    requires { at + 4 ≤ length file.now }
    ensures { result ≡ number_at 4 file.now at }
{
    LittleEndian::read_u32(&file[at..])
}

/// Returns the number in the eight bytes at offset `at`.
#[tactic(auto, unfolding(crate::specs::Number::number_at))]
pub fn u64_at(file: &[u8], at: usize) -> u64
    requires { at + 8 ≤ length file.now }
    ensures { result ≡ number_at 8 file.now at }
{
    LittleEndian::read_u64(&file[at..])
}
