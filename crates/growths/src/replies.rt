// Splits the output of a script into replies, and returns the word for each reply.

use std::alloc::{AllocError, Global};

// The beginnings of replies of one line, and the words for these replies.
const LINES: [(&[u8], &str); 13] = [
    (b"ok\n", "ok"),
    (b"slot ", "slot"),
    (b"going\n", "going"),
    (b"refused S11 ", "S11"),
    (b"refused S1 ", "S1"),
    (b"refused S2 ", "S2"),
    (b"refused C2 ", "C2"),
    (b"refused C3 ", "C3"),
    (b"refused C4 ", "C4"),
    (b"refused C8 ", "C8"),
    (b"refused B3 ", "B3"),
    (b"refused L1 ", "L1"),
    (b"refused L2 ", "L2"),
];

// Returns the word for a reply that is one complete line.
fn line_word(line: &[u8]) -> Option<&'static str> {
    for (front, word) in &LINES {
        if line.starts_with(front) {
            return Some(word);
        }
    }
    None
}

/// Returns the word for a reply.
pub(crate) fn reply_word(reply: &[u8]) -> &'static str {
    match line_word(reply) {
        Some(word) => word,
        None if reply.starts_with(b"object ") => "image",
        None => "list",
    }
}

/// Returns whether a byte ends a line.
pub(crate) fn ends_line(byte: &u8) -> bool {
    *byte == b'\n'
}

/// Splits a text into replies. The reply to a listing or an image ends with the line `end`.
pub(crate) fn replies(alloc: Global, text: &[u8]) -> Result<Vec<Vec<u8>>, AllocError> {
    let mut all = Vec::new(alloc);
    let mut reply = Vec::new(alloc);
    for line in text.split_inclusive(ends_line) {
        reply.extend_from_slice(line)?;
        if line == b"end\n".as_slice() || line_word(line).is_some() {
            all.push(reply)?;
            reply = Vec::new(alloc);
        }
    }
    Ok(all)
}

/// Returns whether a reply states that its line wasn't carried out because memory for the registry
/// or for the disk was refused.
pub(crate) fn is_not_done(reply: &[u8]) -> bool {
    matches!(reply_word(reply), "S1" | "S2" | "S11")
}
