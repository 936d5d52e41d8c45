// Finds the address at which a bound program begins to run.

ghost use Rattle.std.specs.Prelude.{◌≡◌};
ghost use Rattle.std.specs.List.{list_any};
ghost use Rattle.executable.specs.Entry.{is_code, own_entry, entry_of};

use crate::place::MEMORY_LIMIT;
use crate::segments::{holds, split};
use bitflags::Flags;
use image::{Image, ImageObject, Permissions, Segment};

/// Returns whether `address` is in a segment that may be executed.
fn is_code(segment: &Segment, address: u64) -> bool
    ensures { result ≡ is_code address segment.now }
{
    segment.permissions().contains(Permissions::EXECUTE) && holds(segment, address)
}

/// Returns whether one of the segments has `address` and may be executed.
fn has_code(segments: &[Segment], address: u64) -> bool
    ensures { result ≡ list_any (is_code address) segments.now }
{
    segments.iter().any(|s| is_code(s, address))
}

/// Returns the entry of `program`, if it is in the program's own code. The program's own segments
/// are the first `program.segment_count` segments.
fn own_entry(program: &ImageObject, segments: &[Segment]) -> Option<u64>
    ensures { result ≡ own_entry program.now segments.now }
{
    let entry = program.addresses.entry;
    if entry == 0 || entry > MEMORY_LIMIT || program.base > MEMORY_LIMIT - entry {
        return None;
    }
    let address = program.base + entry;
    let (own, _) = split(segments, program.segment_count);
    if has_code(own, address) {
        Some(address)
    } else {
        None
    }
}

/// Returns the entry of a bound program, if it is in the program's own code.
pub(crate) fn entry_of(image: &Image) -> Option<u64>
    ensures { result ≡ entry_of image.now }
{
    match image.objects() {
        [] => None,
        [program, ..] => own_entry(program, image.segments()),
    }
}
