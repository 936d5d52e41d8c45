// Puts an entry of a listing into two buffers: one for its lengths, and one for its name.
ghost use Rattle.std.specs.Prelude.{◌≡◌, ◌⊎◌, ◌+◌, ◌<◌, ◌≤◌, ◌-◌, ◌^◌, ◌++◌};
ghost use Rattle.std.specs.Prelude.{◌∷◌, [], length, min, take};
ghost use Rattle.std.specs.Prelude.{IfSome, IfNone};
ghost use Rattle.c_answers.specs.Listing.{place_of};

use crate::put::put;
use names::Name;

/// A library or a preload of a listing.
#[repr(C)]
#[derive(Clone, Copy)]
pub struct EntryPlace {
    /// The offset of the library's or the preload's name in the buffer of names.
    pub name: u64,
    /// The length of this name in bytes, without the byte 0 after it.
    pub name_length: u32,
    /// The length of a library's file in bytes; 0 for a preload.
    pub file_length: u32,
}

/// Returns the place of an entry whose name is at offset `at`.
fn place_of(name: &Name, file_length: u32, at: usize) -> EntryPlace
    ensures { result ≡ place_of at (name.now, file_length) }
{
    EntryPlace {
        name: at as u64,
        name_length: name.as_bytes().len().min(u32::MAX as usize) as u32,
        file_length,
    }
}

/// Returns the number of bytes of a name and the byte 0 after it, or 2^64 - 1 if the number is
/// greater.
pub(crate) fn name_bytes(name: &Name) -> u64
    ensures { result ≡ min (length name.now + 1) (2 ^ 64 - 1) }
{
    (name.as_bytes().len() as u64).saturating_add(1)
}

/// Puts a name and a byte 0 into the buffer `names` at offset `at`. Returns the offset after the
/// byte 0, or `None` if the buffer is too small.
pub(crate) fn put_name(name: &Name, at: usize, names: &mut [u8]) -> Option<usize>
    ensures end { IfSome result (λ end. end ≡ at + length name.now + 1) }
    ensures front { IfSome result (λ end. take end names.new
        ≡ take at names.old ++ (name.now ++ 0 ∷ [])) }
    ensures size { length names.new ≡ length names.old }
    ensures small { IfNone result (length names.old < at + length name.now + 1) }
{
    let at = put(names, at, name.as_bytes())?;
    put(names, at, b"\0")
}

/// Puts entry number `index` into the two buffers, with the entry's name at offset `at`. Returns
/// the offset for the next name, or `None` if a buffer is too small.
pub(crate) fn put_entry(
    name: &Name,
    file_length: u32,
    index: usize,
    at: usize,
    entries: &mut [EntryPlace],
    names: &mut [u8],
) -> Option<usize>
    ensures end { IfSome result (λ end. end ≡ at + length name.now + 1) }
    ensures entries { IfSome result (λ _. take (index + 1) entries.new
        ≡ take index entries.old ++ place_of at (name.now, file_length) ∷ []) }
    ensures inside { IfSome result (λ _. index < length entries.old) }
    ensures names { IfSome result (λ end. take end names.new
        ≡ take at names.old ++ (name.now ++ 0 ∷ [])) }
    ensures size { length names.new ≡ length names.old }
    ensures small { IfNone result ((length entries.old ≤ index)
        ⊎ (length names.old < at + length name.now + 1)) }
{
    if index >= entries.len() {
        return None;
    }
    entries[index] = place_of(name, file_length, at);
    put_name(name, at, names)
}
