// The bytes of a segment.

ghost use Rattle.std.specs.Prelude.{◌≡◌, ◌-◌, ◌≤◌, ◌<◌, ◌^◌, ◌++◌, OnOk};
ghost use Rattle.std.specs.Prelude.{drop, length, replicate, take};
ghost use Rattle.image.specs.inside.Segments.{padded};

use std::alloc::AllocError;
use std::marker::Model;

/// The bytes of a segment: a slice of stored bytes, and after them zeros, which take no memory. In
/// contracts, the value is all of these bytes.
#[derive(Drop)]
pub struct Memory<'a> {
    front: &'a [u8],
    size: u32,
}

impl<'a> Model for Memory<'a> {
    ghost use Rattle.std.specs.Prelude.{ℕ, List, ◌≤◌, length};
    ghost use Rattle.image.specs.inside.Segments.{padded};

    ghost Value = { List ℕ };

    ghost view = { λ m. padded m.front.now m.size };

    ghost invariant = { λ m. length m.front.now ≤ m.size };
}

impl<'a> Memory<'a> {
    /// Makes `size` bytes: those of `front`, and then zeros.
    pub fn new(front: &'a [u8], size: u32) -> Memory<'a>
        requires { length front.now ≤ size }
        ensures { result ≡ padded front.now size }
    {
        Memory { front, size }
    }

    /// Returns the number of bytes.
    #[tactic(auto, using(crate::proofs::Padding::length_padded))]
    pub fn len(&self) -> usize
        ensures len { result ≡ length self.now }
        ensures fits { length self.now < 2 ^ 32 }
    {
        self.size as usize
    }

    /// Returns the stored bytes. All bytes after them are zeros.
    #[tactic(auto, using(crate::proofs::Padding::length_padded))]
    pub fn front(&self) -> &'a [u8]
        ensures within { length result.now ≤ length self.now }
        ensures all { self.now
            ≡ result.now ++ replicate (length self.now - length result.now) 0 }
    {
        self.front
    }

    /// Returns the bytes after the first `count`.
    pub fn skip(&self, count: usize) -> Memory<'a>
        requires { count ≤ length self.now }
        ensures { result ≡ drop count self.now }
    {
        let kept = count.min(self.front.len());
        Memory {
            front: &self.front[kept..],
            size: self.size - count as u32,
        }
    }

    /// Copies the first bytes to `out`, until `out` is full.
    pub fn copy_to(&self, out: &mut [u8])
        requires { length out.old ≤ length self.now }
        ensures { out.new ≡ take (length out.old) self.now }
    {
        let kept = self.front.len().min(out.len());
        let (front, zeros) = out.split_at_mut(kept);
        front.copy_from_slice(&self.front[..kept]);
        zeros.fill(0);
    }

    /// Appends all bytes to `out`.
    pub fn append_to(&self, out: &mut Vec<u8>) -> Result<(), AllocError>
        ensures { OnOk result (out.new.items ≡ out.old.items ++ self.now) }
    {
        out.extend_from_slice(self.front)?;
        let zeros = self.size as usize - self.front.len();
        out.resize(out.len() + zeros, 0)
    }
}
