// Puts a listing into two buffers: one for the lengths of each entry, and one for the names of all
// entries in a row.
ghost use Rattle.std.specs.Prelude.{◌≡◌, ◌⊎◌, ◌+◌, ◌-◌, ◌<◌, ◌^◌, ◌++◌, length, min, take};
ghost use Rattle.std.specs.Prelude.{IfSome, IfNone};
ghost use Rattle.c_answers.specs.Listing.{entries_of, preload_entries, names_in_row, places_of};
ghost use Rattle.c_answers.specs.Listing.{IsListingGiven};

use crate::answer::Answer;
use crate::entry::{EntryPlace, name_bytes, put_entry};
use crate::status::{DONE, NO_ROOM};
use names::Name;
use requests::Listing;

/// Returns the number of bytes of the libraries' names, or 2^64 - 1 if the number is greater.
fn library_bytes(libraries: &[(Name, u32)]) -> u64
    ensures { result ≡ min (length (names_in_row libraries.now)) (2 ^ 64 - 1) }
{
    let mut bytes = 0u64;
    for (name, _) in libraries {
        bytes = bytes.saturating_add(name_bytes(name));
    }
    bytes
}

/// Returns the number of bytes of the preloads' names, or 2^64 - 1 if the number is greater.
fn preload_bytes(preloads: &[Name]) -> u64
    ensures { result
        ≡ min (length (names_in_row (preload_entries preloads.now))) (2 ^ 64 - 1) }
{
    let mut bytes = 0u64;
    for name in preloads {
        bytes = bytes.saturating_add(name_bytes(name));
    }
    bytes
}

/// Returns the number of bytes of all names, or 2^64 - 1 if the number is greater.
fn names_bytes(listing: &Listing) -> u64
    ensures { result ≡ min (length (names_in_row (entries_of listing.now))) (2 ^ 64 - 1) }
{
    library_bytes(&listing.libraries).saturating_add(preload_bytes(&listing.preloads))
}

/// Puts the libraries into the two buffers. Returns the offset for the next name, or `None` if a
/// buffer is too small.
fn put_libraries(
    libraries: &[(Name, u32)],
    entries: &mut [EntryPlace],
    names: &mut [u8],
) -> Option<usize>
    ensures end { IfSome result (λ end. end ≡ length (names_in_row libraries.now)) }
    ensures entries { IfSome result (λ _. take (length libraries.now) entries.new
        ≡ places_of 0 libraries.now) }
    ensures names { IfSome result (λ end. take end names.new ≡ names_in_row libraries.now) }
    ensures size { length names.new ≡ length names.old }
    ensures small { IfNone result ((length entries.old < length libraries.now)
        ⊎ (length names.old < length (names_in_row libraries.now))) }
{
    let mut at = 0usize;
    for (i, (name, length)) in libraries.iter().enumerate() {
        at = put_entry(name, *length, i, at, entries, names)?;
    }
    Some(at)
}

/// Puts the preloads into the two buffers, after `libraries` libraries, with the names from offset
/// `from` on. Returns the offset after the last name, or `None` if a buffer is too small.
fn put_preloads(
    preloads: &[Name],
    libraries: usize,
    from: usize,
    entries: &mut [EntryPlace],
    names: &mut [u8],
) -> Option<usize>
    ensures end { IfSome result (λ end. end
        ≡ from + length (names_in_row (preload_entries preloads.now))) }
    ensures entries { IfSome result (λ _. take (libraries + length preloads.now) entries.new
        ≡ take libraries entries.old ++ places_of from (preload_entries preloads.now)) }
    ensures names { IfSome result (λ end. take end names.new
        ≡ take from names.old ++ names_in_row (preload_entries preloads.now)) }
    ensures small { IfNone result ((length entries.old < libraries + length preloads.now)
        ⊎ (length names.old < from + length (names_in_row (preload_entries preloads.now)))) }
{
    let mut at = from;
    for (i, name) in preloads.iter().enumerate() {
        at = put_entry(name, 0, libraries.saturating_add(i), at, entries, names)?;
    }
    Some(at)
}

/// Puts the libraries and then the preloads into the two buffers. Returns the number of bytes of
/// the names, or `None` if a buffer is too small.
fn put_entries(listing: &Listing, entries: &mut [EntryPlace], names: &mut [u8]) -> Option<usize>
    ensures end { IfSome result (λ end. end ≡ length (names_in_row (entries_of listing.now))) }
    ensures entries { IfSome result (λ _. take (length (entries_of listing.now)) entries.new
        ≡ places_of 0 (entries_of listing.now)) }
    ensures names { IfSome result (λ end. take end names.new
        ≡ names_in_row (entries_of listing.now)) }
    ensures small { IfNone result ((length entries.old < length (entries_of listing.now))
        ⊎ (length names.old < length (names_in_row (entries_of listing.now)))) }
{
    let at = put_libraries(&listing.libraries, entries, names)?;
    put_preloads(
        &listing.preloads,
        listing.libraries.len(),
        at,
        entries,
        names,
    )
}

/// Puts a listing into the two buffers. If a buffer is too small, returns the sizes that are needed
/// for both buffers.
pub(crate) fn put_listing(listing: &Listing, entries: &mut [EntryPlace], names: &mut [u8]) -> Answer
    ensures { IsListingGiven listing.now entries.new names.new result result.status }
{
    let counted = Answer {
        count: listing.libraries.len() as u64,
        preloads: listing.preloads.len() as u64,
        ..Answer::of(DONE)
    };
    match put_entries(listing, entries, names) {
        Some(end) => Answer {
            bytes: end as u64,
            ..counted
        },
        None => Answer {
            status: NO_ROOM,
            bytes: names_bytes(listing),
            ..counted
        },
    }
}
