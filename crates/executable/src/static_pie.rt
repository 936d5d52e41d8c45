// Tests whether a program relocates itself when it starts.

ghost use Rattle.std.specs.Prelude.{◌≡◌, ◌+◌, ◌≤◌, length};
ghost use Rattle.elf_file.specs.Number.{number_at};
ghost use Rattle.executable.specs.StaticPie.{is_pie, has_header, is_static_pie};

use crate::initializers::{DT_NULL, dynamic_memory, nth_entry, section_memory};
use crate::segments::split;
use elf_file::u32_at;
use image::{Image, Memory};

/// The tag, in `d_tag`, of an object's flags; and the flag of a position-independent executable.
const DT_FLAGS_1: u64 = 0x6fff_fffb;

const DF_1_PIE: u64 = 0x0800_0000;

/// The `p_type` of the segment that names an interpreter.
const PT_INTERP: u32 = 3;

/// The size of a program header in bytes.
pub(crate) const PROGRAM_HEADER_SIZE: usize = 56;

/// Returns the number in the four bytes at offset `at` of memory, little endian.
pub(crate) fn u32_in(memory: &Memory<'_>, at: usize) -> u32
    requires { at + 4 ≤ length memory.now }
    ensures { result ≡ number_at 4 memory.now at }
{
    let mut bytes = [0u8; 4];
    memory.skip(at).copy_to(&mut bytes);
    u32_at(&bytes, 0)
}

/// Returns whether the flags in a dynamic section mark its object as a position-independent
/// executable.
#[tactic(auto, unfolding(crate::specs::StaticPie::is_pie, elf_file::specs::Dynamic::entries_in, elf_file::specs::Dynamic::whole_entries))]
fn is_pie(section: &Memory<'_>) -> bool
    ensures { result ≡ is_pie section.now }
{
    (0..section.len() / 16)
        .map(|i| nth_entry(section, i))
        .take_while(|e| e.tag != DT_NULL)
        .any(|e| e.tag == DT_FLAGS_1 && e.value & DF_1_PIE != 0)
}

/// Returns whether one of the first `count` program headers has the type `kind`. Reads only headers
/// that are completely in `memory`.
#[tactic(auto, unfolding(crate::specs::StaticPie::has_header))]
fn has_header(memory: &Memory<'_>, count: u64, kind: u32) -> bool
    ensures { result ≡ has_header memory.now count kind }
{
    let whole = memory.len() / PROGRAM_HEADER_SIZE;
    let count = (whole as u64).min(count) as usize;
    (0..count).any(|i| u32_in(memory, PROGRAM_HEADER_SIZE * i) == kind)
}

/// Returns whether the program is a static PIE.
pub(crate) fn is_static_pie(image: &Image) -> bool
    ensures { result ≡ is_static_pie image.now }
{
    match image.objects() {
        [] => false,
        [program, ..] => {
            let (own, _) = split(image.segments(), program.segment_count);
            let headers = section_memory(program.base, own, program.addresses.headers);
            is_pie(&dynamic_memory(program, own))
                && !has_header(&headers, program.addresses.header_count, PT_INTERP)
        }
    }
}
