// An index of the segments' first addresses, for objects with many segments.

ghost use Rattle.std.specs.Prelude.{◌<◌, ◌^◌};

use crate::segment::Segment;
use std::alloc::{AllocError, Global};

/// The maximum number of segments of an object whose index stays empty.
const FEW: usize = 16;
/// The number of bytes of memory that a part of the index covers.
const PART: u64 = 1024;
/// The maximum number of parts. They cover 64 MiB, the maximum size of an object's memory.
const PARTS: u64 = 65536;

/// An index of an object's segments, which guesses the segment that has an address. It divides the
/// memory, from the first segment on, into parts. For each part, it has the number of segments that
/// begin before the part. So only the segments that begin in one part need a binary search. The
/// caller tests each guess, so the contracts of this type state nothing about the guesses.
#[derive(Drop)]
pub(crate) struct MemoryParts {
    first: u64,
    begun: Vec<usize>,
}

impl MemoryParts {
    /// Makes the index of `segments`, which is empty if there are few segments. Makes one pass over
    /// the segments. Allocates eight bytes for each part, at most 512 KiB.
    pub(crate) fn of(alloc: Global, segments: &[Segment]) -> Result<MemoryParts, AllocError> {
        let mut parts = MemoryParts {
            first: 0,
            begun: Vec::new(alloc),
        };
        if segments.len() <= FEW {
            return Ok(parts);
        }
        parts.first = segments[0].address();
        for (i, segment) in segments.iter().enumerate() {
            let part = parts.part_of(segment.address());
            parts.begun.resize(part + 1, i)?;
        }
        Ok(parts)
    }

    /// Returns the number of the part in which `place` lies.
    fn part_of(&self, place: u64) -> usize
        ensures { result < 2 ^ 32 }
    {
        (place.saturating_sub(self.first) / PART).min(PARTS) as usize
    }

    /// Returns the number of segments that begin before part number `part`. There are `count`
    /// segments.
    fn begun_before(&self, part: usize, count: usize) -> usize {
        match self.begun.get(part) {
            Some(begun) => *begun,
            None => count,
        }
    }

    /// Guesses the number of the last segment that begins at or below `place`. If this is the index
    /// of `segments`, the guess is right.
    pub(crate) fn guess(&self, segments: &[Segment], place: u64) -> usize {
        let part = self.part_of(place);
        let low = self.begun_before(part, segments.len());
        let high = self.begun_before(part + 1, segments.len());
        let Some(own) = segments.get(low..high) else {
            return low;
        };
        let begun = low + own.partition_point(|s| s.address() <= place);
        begun.saturating_sub(1)
    }
}
