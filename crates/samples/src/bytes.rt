// Bytes of a file or a sector.

/// Writes `bytes` over the bytes of a file or a sector, from offset `at` on. Ignores bytes that
/// would lie past the end.
pub fn put(file: &mut [u8], at: usize, bytes: &[u8]) {
    for (i, byte) in bytes.iter().enumerate() {
        if let Some(place) = file.get_mut(at.saturating_add(i)) {
            *place = *byte;
        }
    }
}
