// Writes the values of relocations into the segments of an object.

ghost use Rattle.std.specs.Prelude.{◌≡◌, ◌+◌, ◌≤◌, ℕ, map, None, IfOk, IfSome, OnOk};
ghost use Rattle.std.specs.List.{filter_map};
ghost use Rattle.elf_dynamic.specs.Refusal.{first_refusal};
ghost use Rattle.elf_dynamic.specs.Relocation.{relocations};
ghost use Rattle.elf_file.specs.Segment.{loads};
ghost use Rattle.image.specs.Bound.{value_in};
ghost use Rattle.image.specs.Byte.{byte_after};
ghost use Rattle.image.specs.Constant.{MEMORY_LIMIT};
ghost use Rattle.image.specs.Image.{heading, segments_byte};
ghost use Rattle.image.specs.Loading.{heading_at, loaded_at};
ghost use Rattle.image.specs.Placement.{reach};
ghost use Rattle.image.specs.Relocating.{last_write_at, write_with, written_or};
ghost use Rattle.image.specs.inside.Segments.{Lands, Rising, after};

use crate::load::load;
use crate::memory_parts::MemoryParts;
use crate::patch::patch;
use crate::segment::Segment;
use crate::value::written_value;
use elf_dynamic::{Object, Relocation};
use std::alloc::{AllocError, Global};

/// Writes the value of `relocation`, which belongs to an object at `base`, into the segments, if it
/// writes a value. Returns the number of the segment into which the value was written, or `near` if
/// the relocation writes nothing.
fn relocate_one(
    segments: &mut [Segment],
    parts: &MemoryParts,
    near: usize,
    base: u64,
    values: &[u64],
    relocation: Relocation,
) -> Result<usize, AllocError>
    requires rising { Rising 0 (map heading segments.old) }
    requires lands { IfSome (write_with base (value_in values.now) relocation)
        (Lands (map heading segments.old)) }
    ensures headings { map heading segments.new ≡ map heading segments.old }
    ensures bytes { OnOk result ((a : ℕ) → segments_byte segments.new a
        ≡ after (write_with base (value_in values.now) relocation)
        (segments_byte segments.old a) a) }
{
    match written_value(base, values, relocation) {
        Some(value) => patch(segments, parts, near, base + relocation.offset, value),
        None => Ok(near),
    }
}

/// Writes the values of all relocations of `object`, which is at `base`, into its segments, in the
/// order of the relocations.
///
/// A relocation that lies in the same segment as the relocation before it takes constant time. Any
/// other relocation takes a binary search: over all segments if there are few of them, and
/// otherwise over the segments that begin in one part of the index.
fn relocate(
    segments: &mut [Segment],
    parts: &MemoryParts,
    object: &Object<'_>,
    base: u64,
    values: &[u64],
) -> Result<(), AllocError>
    requires fits { base + reach object.now ≤ MEMORY_LIMIT }
    requires headings { map heading segments.old ≡ map (heading_at base) (loads object.now) }
    ensures headings { map heading segments.new ≡ map heading segments.old }
    ensures bytes { OnOk result ((a : ℕ) → segments_byte segments.new a
        ≡ written_or (last_write_at (filter_map (write_with base (value_in values.now))
        (relocations object.now)) a) (segments_byte segments.old a) a) }
{
    let mut near = 0;
    for i in 0..object.rela_count() {
        let relocation = object.rela(i);
        near = relocate_one(segments, parts, near, base, values, relocation)?;
    }
    Ok(())
}

/// Returns the segments of `object` at `base`, into which the object's relocations have been
/// written.
pub(crate) fn relocated(
    alloc: Global,
    object: &Object<'_>,
    base: u64,
    values: &[u64],
) -> Result<Vec<Segment>, AllocError>
    requires { base + reach object.now ≤ MEMORY_LIMIT }
    ensures accepted { first_refusal object.now ≡ None }
    ensures headings { IfOk result (λ v. map heading v.items
        ≡ map (heading_at base) (loads object.now)) }
    ensures bytes { IfOk result (λ v. (a : ℕ) → segments_byte v.items a
        ≡ byte_after (map (loaded_at base object.now) (loads object.now))
        (filter_map (write_with base (value_in values.now)) (relocations object.now)) a) }
{
    let mut segments = load(alloc, object, base)?;
    let parts = MemoryParts::of(alloc, &segments)?;
    relocate(&mut segments, &parts, object, base, values)?;
    Ok(segments)
}
