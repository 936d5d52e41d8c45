// Returns listings in words.

use requests::Listing;

// The names of libraries, the names of preloads, and the words for a listing of these.
type Line = (&'static [u8], &'static [u8], &'static str);

const LINES: [Line; 5] = [
    (b"", b"", "list of nothing"),
    (b"a", b"", "list a"),
    (b"ab", b"", "list a b"),
    (b"ab", b"b", "list a b preload b"),
    (b"abc", b"b", "list a b c preload b"),
];

// Returns whether a listing has these libraries and these preloads, in this order. Each name has
// one byte.
fn is_listed(listing: &Listing, libraries: &[u8], preloads: &[u8]) -> bool {
    let mut same = listing.libraries.len() == libraries.len()
        && listing.preloads.len() == preloads.len();
    for ((name, _), wanted) in listing.libraries.iter().zip(libraries) {
        same = same && name.as_bytes() == [*wanted].as_slice();
    }
    for (name, wanted) in listing.preloads.iter().zip(preloads) {
        same = same && name.as_bytes() == [*wanted].as_slice();
    }
    same
}

/// Returns the words for a listing.
pub(crate) fn listed(listing: &Listing) -> &'static str {
    for (libraries, preloads, word) in &LINES {
        if is_listed(listing, libraries, preloads) {
            return word;
        }
    }
    "another list"
}
