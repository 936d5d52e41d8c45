// Computes the place of a segment of an image, for a caller in C.
ghost use Rattle.std.specs.Prelude.{◌≡◌};
ghost use Rattle.c_answers.specs.Buffers.{place_of};

use bitflags::Flags;
use image::Segment;

/// The place of a segment of an image: its address, its bytes and its permissions.
#[repr(C)]
#[derive(Clone, Copy)]
pub struct SegmentPlace {
    /// The address of the segment's first byte.
    pub address: u64,
    /// The number of the segment's bytes.
    pub length: u64,
    /// The offset of the segment's bytes in the buffer of bytes.
    pub from: u64,
    /// The permissions: the sum of 1 to execute, 2 to write and 4 to read.
    pub permissions: u64,
}

/// Returns the place of a segment whose bytes are at offset `from`.
pub(crate) fn place_of(segment: &Segment, from: usize) -> SegmentPlace
    ensures { result ≡ place_of from segment.now }
{
    SegmentPlace {
        address: segment.address(),
        length: segment.memory().len() as u64,
        from: from as u64,
        permissions: u64::from(segment.permissions().bits()),
    }
}
