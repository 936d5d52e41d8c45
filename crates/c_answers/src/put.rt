// Puts bytes into a buffer.
ghost use Rattle.std.specs.Prelude.{◌≡◌, ◌+◌, ◌<◌, ◌≤◌, ◌++◌, take, length, IfSome, IfNone};
ghost use Rattle.std.specs.Prelude.{replicate};

use image::Memory;

/// The maximum number of bytes that are compared at once: the size of a page.
const PAGE: usize = 4096;

/// Puts `bytes` into the buffer `out` at offset `at`. Returns the offset after these bytes, or
/// `None` if the buffer is too small.
pub(crate) fn put(out: &mut [u8], at: usize, bytes: &[u8]) -> Option<usize>
    ensures end { IfSome result (λ end. end ≡ at + length bytes.now) }
    ensures inside { IfSome result (λ end. end ≤ length out.new) }
    ensures front { IfSome result (λ end. take end out.new ≡ take at out.old ++ bytes.now) }
    ensures size { length out.new ≡ length out.old }
    ensures same { IfNone result (out.new ≡ out.old) }
    ensures small { IfNone result (length out.old < at + length bytes.now) }
{
    let room = out.len().checked_sub(at)?;
    if bytes.len() > room {
        return None;
    }
    let end = at + bytes.len();
    out[at..end].copy_from_slice(bytes);
    Some(end)
}

/// Writes `bytes` over a buffer of the same length, unless the buffer already has these bytes.
fn put_over(out: &mut [u8], bytes: &[u8])
    requires { length out.old ≡ length bytes.now }
    ensures { out.new ≡ bytes.now }
{
    if *out != *bytes {
        out.copy_from_slice(bytes);
    }
}

/// Writes `bytes` into a buffer at offset `at`.
fn put_at(out: &mut [u8], at: usize, bytes: &[u8])
    requires { at + length bytes.now ≤ length out.old }
    ensures front { take (at + length bytes.now) out.new ≡ take at out.old ++ bytes.now }
    ensures size { length out.new ≡ length out.old }
{
    put_over(&mut out[at..at + bytes.len()], bytes);
}

/// Sets all bytes of a buffer to 0. Doesn't write a page that already has only zeros, so that a
/// page of zeros that the system provides takes no memory.
fn clear(out: &mut [u8])
    ensures { out.new ≡ replicate (length out.old) 0 }
{
    let zeros = [0; PAGE];
    for page in 0..out.len().div_ceil(PAGE) {
        let at = page * PAGE;
        let count = PAGE.min(out.len() - at);
        put_at(out, at, &zeros[..count]);
    }
}

/// Writes the bytes of `memory` over a buffer of the same length.
fn put_all(out: &mut [u8], memory: &Memory<'_>)
    requires { length out.old ≡ length memory.now }
    ensures { out.new ≡ memory.now }
{
    let kept = memory.front();
    let (front, zeros) = out.split_at_mut(kept.len());
    front.copy_from_slice(kept);
    clear(zeros);
}

/// Puts the bytes of a segment into the buffer `out` at offset `at`. Returns the offset after these
/// bytes, or `None` if the buffer is too small.
pub(crate) fn put_memory(out: &mut [u8], at: usize, memory: &Memory<'_>) -> Option<usize>
    ensures end { IfSome result (λ end. end ≡ at + length memory.now) }
    ensures inside { IfSome result (λ end. end ≤ length out.new) }
    ensures front { IfSome result (λ end. take end out.new ≡ take at out.old ++ memory.now) }
    ensures size { length out.new ≡ length out.old }
    ensures same { IfNone result (out.new ≡ out.old) }
    ensures small { IfNone result (length out.old < at + length memory.now) }
{
    let room = out.len().checked_sub(at)?;
    if memory.len() > room {
        return None;
    }
    let end = at + memory.len();
    put_all(&mut out[at..end], memory);
    Some(end)
}
