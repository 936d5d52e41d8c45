// Finds the address at which a file's own headers are mapped.

ghost use Rattle.std.specs.Prelude.{◌≡◌, ◌+◌, ◌-◌, ◌%◌, ◌^◌, ◌<◌, ◌≤◌, length};
ghost use Rattle.std.specs.List.{All};
ghost use Rattle.std.specs.Int.{next_multiple_of};
ghost use Rattle.executable.specs.Piece.{end_of};
ghost use Rattle.executable.specs.Place.{headers_size, headers_room, highest_end};
ghost use Rattle.executable.specs.Place.{place_above, place_for, place_of};

use crate::piece::{Piece, page_of};

/// The size of a page in bytes.
pub(crate) const PAGE: u64 = 4096;
/// The highest address at which memory may end: a page below 2^47.
pub(crate) const MEMORY_LIMIT: u64 = 0x7fff_ffff_f000;
/// The lowest address that the kernel lets a process map, unless the process runs as root.
const LOWEST: u64 = 0x10000;
/// The maximum number of program headers that the kernel accepts.
pub(crate) const MOST_HEADERS: usize = 1170;

/// Returns the size in bytes of the file header and of `count` program headers.
pub(crate) fn headers_size(count: usize) -> u64
    requires { count ≤ MOST_HEADERS }
    ensures { result ≡ headers_size count }
{
    64 + 56 * count as u64
}

/// Returns the number of bytes from `size` to the next multiple of the size of a page.
pub(crate) fn padding(size: u64) -> u64
    ensures { result ≡ (PAGE - size % PAGE) % PAGE }
{
    (PAGE - size % PAGE) % PAGE
}

/// Returns `size` rounded up to whole pages.
pub(crate) fn whole_pages(size: u64) -> u64
    requires { size < 2 ^ 63 }
    ensures { result ≡ next_multiple_of size PAGE }
{
    size + padding(size)
}

/// Returns the address of the first page that is below neither `end` nor `LOWEST`, or `None` if
/// `room` bytes from there would end above the limit.
fn place_above(end: u64, room: u64) -> Option<u64>
    requires end { end ≤ MEMORY_LIMIT }
    requires room { room ≤ MEMORY_LIMIT }
    ensures { result ≡ place_above end room }
{
    let place = whole_pages(end).max(LOWEST);
    if place + room <= MEMORY_LIMIT {
        Some(place)
    } else {
        None
    }
}

/// Returns the greatest address at which a piece ends, or 0 if there are no pieces.
fn highest_end(pieces: &[Piece]) -> u64
    requires { All (λ p. end_of p ≤ MEMORY_LIMIT) pieces.now }
    ensures end { result ≡ highest_end pieces.now }
    ensures bound { result ≤ MEMORY_LIMIT }
{
    let mut highest = 0;
    for piece in pieces {
        highest = highest.max(piece.end());
    }
    highest
}

/// Returns the address at which the headers of a file with these pieces are mapped, if there is
/// room.
pub(crate) fn place_of(pieces: &[Piece]) -> Option<u64>
    requires pieces { All (λ p. end_of p ≤ MEMORY_LIMIT) pieces.now }
    requires count { length pieces.now + 3 ≤ MOST_HEADERS }
    ensures { result ≡ place_of pieces.now }
{
    let room = whole_pages(headers_size(pieces.len() + 3));
    let [first, ..] = pieces else {
        return Some(LOWEST);
    };
    let page = page_of(first.address());
    if LOWEST + room <= page {
        Some(page - room)
    } else {
        place_above(highest_end(pieces), room)
    }
}
