// Fills segments from a file.

ghost use Rattle.std.specs.Prelude.{◌≡◌, ◌+◌, ◌≤◌, map, None, IfOk};
ghost use Rattle.elf_file.specs.Segment.{loads};
ghost use Rattle.elf_dynamic.specs.Refusal.{first_refusal};
ghost use Rattle.image.specs.Constant.{MEMORY_LIMIT};
ghost use Rattle.image.specs.Loading.{loaded_at};
ghost use Rattle.image.specs.Placement.{reach};
ghost use Rattle.image.specs.inside.Segments.{fresh};

use crate::permissions::Permissions;
use crate::segment::Segment;
use elf_dynamic::Object;
use std::alloc::{AllocError, Global};

/// Returns the segments of `object` at `base`, before any relocation. Makes one pass over the
/// PT_LOADs, and copies the file's bytes once.
pub(crate) fn load(
    alloc: Global,
    object: &Object<'_>,
    base: u64,
) -> Result<Vec<Segment>, AllocError>
    requires { base + reach object.now ≤ MEMORY_LIMIT }
    ensures ok { IfOk result (λ v. v.items
        ≡ map fresh (map (loaded_at base object.now) (loads object.now))) }
    ensures accepted { first_refusal object.now ≡ None }
{
    let mut segments = Vec::with_capacity(alloc, object.segment_count())?;
    for header in object.segments() {
        let front = Vec::from_slice(alloc, object.contents_of(header))?;
        let permissions = Permissions::of_flags(header.flags);
        let size = header.memory_size as u32;
        segments.push_reserved(Segment::new(base + header.address, permissions, front, size));
    }
    Ok(segments)
}
