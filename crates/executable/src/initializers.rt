// Finds objects with functions that a loader calls before a program starts and after it ends.

ghost use Rattle.std.specs.Prelude.{◌≡◌, ◌+◌, ◌<◌, ◌≤◌, ◌/◌, ◌^◌, length};
ghost use Rattle.std.specs.Option.{option_map};
ghost use Rattle.elf_file.specs.Dynamic.{entry};
ghost use Rattle.elf_file.specs.Number.{number_at};
ghost use Rattle.executable.specs.Initializers.{has_from, has_array, has_functions};
ghost use Rattle.executable.specs.Initializers.{memory_from, section_memory, dynamic_memory};
ghost use Rattle.executable.specs.Initializers.{first_among, first_library, first_initialized};
ghost use Rattle.executable.specs.Initializers.{first_finalized, is_preinitialized};

use crate::place::MEMORY_LIMIT;
use crate::segments::{holds, split};
use elf_file::{Entry, u64_at};
use image::{Image, ImageObject, Memory, Segment};
use names::Name;

/// The tag, in `d_tag`, of the end of a dynamic section (gABI chapter 5).
pub(crate) const DT_NULL: u64 = 0;
/// The tags of an initializer, of an array of initializers, and of this array's size in bytes.
const DT_INIT: u64 = 12;

const DT_INIT_ARRAY: u64 = 25;

const DT_INIT_ARRAYSZ: u64 = 27;

/// The tags of a finalizer, of an array of finalizers, and of this array's size in bytes.
/// Finalizers are functions that a loader calls when the program ends.
const DT_FINI: u64 = 13;

const DT_FINI_ARRAY: u64 = 26;

const DT_FINI_ARRAYSZ: u64 = 28;

/// The tags of an array of pre-initializers and of this array's size in bytes. Only a program has
/// such an array. A loader calls its functions before all other functions.
const DT_PREINIT_ARRAY: u64 = 32;

const DT_PREINIT_ARRAYSZ: u64 = 33;

/// The size in bytes of an entry of an array of functions.
const ARRAY_ENTRY_SIZE: u64 = 8;

/// The tags of a function, of an array of functions, and of this array's size.
#[derive(Drop)]
struct Tags {
    function: u64,
    array: u64,
    size: u64,
}

/// Returns the number in the eight bytes at offset `at` of memory, little endian.
pub(crate) fn u64_in(memory: &Memory<'_>, at: usize) -> u64
    requires { at + 8 ≤ length memory.now }
    ensures { result ≡ number_at 8 memory.now at }
{
    let mut bytes = [0u8; 8];
    memory.skip(at).copy_to(&mut bytes);
    u64_at(&bytes, 0)
}

/// Returns entry number `i` of a dynamic section.
#[tactic(auto, unfolding(elf_file::specs::Dynamic::entry))]
pub(crate) fn nth_entry(section: &Memory<'_>, i: usize) -> Entry
    requires small { length section.now < 2 ^ 32 }
    requires within { i < length section.now / 16 }
    ensures { result ≡ entry section.now i }
{
    Entry {
        tag: u64_in(section, 16 * i),
        value: u64_in(section, 16 * i + 8),
    }
}

/// Returns whether a dynamic section has an entry with the tag `tag` and a value of at least
/// `least`. Makes one pass over the section.
#[tactic(auto, unfolding(crate::specs::Initializers::has_from, elf_file::specs::Dynamic::entries_in, elf_file::specs::Dynamic::whole_entries))]
fn has_from(section: &Memory<'_>, tag: u64, least: u64) -> bool
    ensures { result ≡ has_from section.now tag least }
{
    (0..section.len() / 16)
        .map(|i| nth_entry(section, i))
        .take_while(|e| e.tag != DT_NULL)
        .any(|e| e.tag == tag && e.value >= least)
}

/// Returns whether a dynamic section has an array of functions with at least one entry. `array` and
/// `size` are the tags of the array and of its size.
fn has_array(section: &Memory<'_>, array: u64, size: u64) -> bool
    ensures { result ≡ has_array section.now array size }
{
    has_from(section, array, 0) && has_from(section, size, ARRAY_ENTRY_SIZE)
}

/// Returns whether a dynamic section has a function, or an array of functions with at least one
/// entry, by the tags `tags`.
fn has_functions(section: &Memory<'_>, tags: &Tags) -> bool
    ensures { result ≡ has_functions tags.now.function tags.now.array tags.now.size section.now }
{
    has_from(section, tags.function, 0) || has_array(section, tags.array, tags.size)
}

/// Returns the memory from `address` to the end of the segment that has this address.
fn memory_from(segments: &[Segment], address: u64) -> Memory<'_>
    ensures { result ≡ memory_from segments.now address }
{
    for segment in segments {
        if holds(segment, address) {
            return segment
                .memory()
                .skip((address - segment.address()) as usize);
        }
    }
    Memory::new(&[], 0)
}

/// Returns the memory of an object's own segments from address `base` + `place` to the end of the
/// segment. The memory is empty if `place` is `None`, or if no segment has this address.
pub(crate) fn section_memory(base: u64, own: &[Segment], place: Option<u64>) -> Memory<'_>
    ensures { result ≡ section_memory base own.now place }
{
    let Some(place) = place else {
        return Memory::new(&[], 0);
    };
    if place > MEMORY_LIMIT || base > MEMORY_LIMIT - place {
        return Memory::new(&[], 0);
    }
    memory_from(own, base + place)
}

/// Returns the memory from an object's dynamic section to the end of its segment.
pub(crate) fn dynamic_memory<'a>(object: &ImageObject, own: &'a [Segment]) -> Memory<'a>
    ensures { result ≡ dynamic_memory object.now own.now }
{
    section_memory(object.base, own, object.addresses.dynamic)
}

/// Returns the name of the first library that has functions by the tags `tags`. Makes one pass over
/// objects, segments and dynamic sections.
fn first_library<'a>(image: &'a Image, tags: &Tags) -> Option<&'a Name>
    ensures { option_map (λ name. name.now) result
        ≡ first_library (has_functions tags.now.function tags.now.array tags.now.size) image.now }
{
    let [program, libraries @ ..] = image.objects() else {
        return None;
    };
    let (_, mut segments) = split(image.segments(), program.segment_count);
    for library in libraries {
        let (own, others) = split(segments, library.segment_count);
        if has_functions(&dynamic_memory(library, own), tags) {
            return Some(&library.name);
        }
        segments = others;
    }
    None
}

/// Returns the name of the first library that has initializers.
pub(crate) fn first_initialized(image: &Image) -> Option<&Name>
    ensures { option_map (λ name. name.now) result ≡ first_initialized image.now }
{
    let tags = Tags {
        function: DT_INIT,
        array: DT_INIT_ARRAY,
        size: DT_INIT_ARRAYSZ,
    };
    first_library(image, &tags)
}

/// Returns the name of the first library that has finalizers.
pub(crate) fn first_finalized(image: &Image) -> Option<&Name>
    ensures { option_map (λ name. name.now) result ≡ first_finalized image.now }
{
    let tags = Tags {
        function: DT_FINI,
        array: DT_FINI_ARRAY,
        size: DT_FINI_ARRAYSZ,
    };
    first_library(image, &tags)
}

/// Returns whether the program has pre-initializers.
pub(crate) fn is_preinitialized(image: &Image) -> bool
    ensures { result ≡ is_preinitialized image.now }
{
    match image.objects() {
        [] => false,
        [program, ..] => {
            let (own, _) = split(image.segments(), program.segment_count);
            has_array(
                &dynamic_memory(program, own),
                DT_PREINIT_ARRAY,
                DT_PREINIT_ARRAYSZ,
            )
        }
    }
}
