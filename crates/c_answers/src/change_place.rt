// A change of an update, whose bytes are at an offset of a buffer.
ghost use Rattle.std.specs.Prelude.{◌≡◌, ◌+◌, ◌<◌, ◌≤◌, MatchOption, length};
ghost use Rattle.c_answers.specs.Changes.{own_bytes};

/// A change of an update. Its bytes are those of a file, of a name, or of names in a row.
#[repr(C)]
#[derive(Clone, Copy)]
pub struct ChangePlace {
    /// The kind of change. Kind 1 installs a library and kind 2 replaces one; the bytes are the
    /// library's file. Kind 3 removes a library; the bytes are its name. Kind 4 sets the preloads;
    /// the bytes are their names, each followed by a byte 0.
    pub kind: u64,
    /// The offset of the change's bytes in the buffer of bytes.
    pub from: u64,
    /// The number of the change's bytes.
    pub length: u64,
}

/// Returns the bytes of a change, or `None` if they don't lie within `bytes`.
pub(crate) fn own_bytes<'a>(change: &ChangePlace, bytes: &'a [u8]) -> Option<&'a [u8]>
    ensures { MatchOption result (length bytes.now < change.now.from + change.now.length)
        (λ own. (change.now.from + change.now.length ≤ length bytes.now)
        × (own.now ≡ own_bytes bytes.now change.now)) }
{
    let count = bytes.len() as u64;
    if change.from > count || change.length > count - change.from {
        return None;
    }
    let (_, rest) = bytes.split_at(change.from as usize);
    let (own, _) = rest.split_at(change.length as usize);
    Some(own)
}
