// Finds memory that may be written and executed, although no segment in it requests both.

ghost use Rattle.std.specs.Prelude.{◌≡◌, ◌+◌, ◌&&◌, nat_lt};
ghost use Rattle.std.specs.List.{find, list_any};
ghost use Rattle.std.specs.Option.{option_map};
ghost use Rattle.image.specs.Permissions.{permission_bits};
ghost use Rattle.executable.specs.Piece.{is_both};
ghost use Rattle.executable.specs.WritableCode.{meets, is_unasked, owner_among};

use crate::piece::{Piece, flags_of, is_both};
use crate::segments::split;
use image::{Image, Segment};

/// Returns whether `size` bytes from address `from` end above `address`.
fn ends_above(from: u64, size: u64, address: u64) -> bool
    ensures { result ≡ nat_lt address (from + size) }
{
    address < from || address - from < size
}

/// Returns whether `segment` has a byte within `piece`.
fn meets(piece: &Piece, segment: &Segment) -> bool
    ensures { result ≡ meets piece.now segment.now }
{
    let size = segment.memory().len() as u64;
    size != 0
        && ends_above(piece.address(), piece.size(), segment.address())
        && ends_above(segment.address(), size, piece.address())
}

/// Returns whether a segment that has a byte in `piece` requests both writing and executing.
fn is_asked(segments: &[Segment], piece: &Piece) -> bool
    ensures { result ≡ list_any
        (λ s. meets piece.now s && is_both (permission_bits s.permissions)) segments.now }
{
    segments
        .iter()
        .any(|s| meets(piece, s) && is_both(flags_of(s)))
}

/// Returns whether `piece` may be written and executed, although no segment that has a byte in it
/// requests both.
fn is_unasked(segments: &[Segment], piece: &Piece) -> bool
    ensures { result ≡ is_unasked segments.now piece.now }
{
    is_both(piece.flags()) && !is_asked(segments, piece)
}

/// Returns the first piece that may be written and executed although no segment in it requests
/// both. Makes one pass over the segments for each piece that may be written and executed.
pub(crate) fn first_unasked<'a>(segments: &[Segment], pieces: &'a [Piece]) -> Option<&'a Piece>
    ensures { option_map (λ p. p.now) result ≡ find (is_unasked segments.now) pieces.now }
{
    for piece in pieces {
        if is_unasked(segments, piece) {
            return Some(piece);
        }
    }
    None
}

/// Returns whether one of the segments has a byte in `piece`.
fn any_meets(segments: &[Segment], piece: &Piece) -> bool
    ensures { result ≡ list_any (meets piece.now) segments.now }
{
    segments.iter().any(|s| meets(piece, s))
}

/// Returns the name of the first object that has a segment with a byte in `piece`.
pub(crate) fn owner<'a>(image: &'a Image, piece: &Piece) -> &'a [u8]
    ensures { result.now ≡ owner_among piece.now image.now.objects image.now.segments }
{
    let mut segments = image.segments();
    for object in image.objects() {
        let (own, others) = split(segments, object.segment_count);
        if any_meets(own, piece) {
            return object.name.as_bytes();
        }
        segments = others;
    }
    &[]
}
