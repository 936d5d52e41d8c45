// The segments of an image.

ghost use Rattle.std.specs.Prelude.{◌≡◌, take, drop};
ghost use Rattle.image.specs.Heading.{holds};
ghost use Rattle.image.specs.Image.{heading};

use image::Segment;

/// Returns whether `address` is in the segment.
pub(crate) fn holds(segment: &Segment, address: u64) -> bool
    ensures { result ≡ holds address (heading segment.now) }
{
    segment.address() <= address && address - segment.address() < segment.memory().len() as u64
}

/// Returns the first `count` segments (or all, if there are fewer), and the segments after them.
#[tactic(auto, using(std::proofs::lemmas::List::take_min))]
pub(crate) fn split(segments: &[Segment], count: usize) -> (&[Segment], &[Segment])
    ensures own { result.0.now ≡ take count segments.now }
    ensures others { result.1.now ≡ drop count segments.now }
{
    segments.split_at(count.min(segments.len()))
}
