// Puts an image into three buffers: the places of its objects; the places of its segments; and the
// bytes of all segments, followed by the names of all objects.
ghost use Rattle.std.specs.Prelude.{◌≡◌, ◌⊎◌, ◌+◌, ◌<◌, ◌-◌, ◌^◌, ◌++◌, length, take, min};
ghost use Rattle.std.specs.Prelude.{IfSome, IfNone};
ghost use Rattle.c_answers.specs.Buffers.{segment_bytes, places_of, image_row};
ghost use Rattle.c_answers.specs.Buffers.{IsImageGiven};
ghost use Rattle.c_answers.specs.Objects.{object_names, object_places};

use crate::answer::Answer;
use crate::entry::{name_bytes, put_name};
use crate::object::{ObjectPlace, object_place};
use crate::place::{SegmentPlace, place_of};
use crate::put::put_memory;
use crate::status::{DONE, NO_ROOM};
use image::Image;

/// Returns the number of bytes of all segments, or 2^64 - 1 if the number is greater.
fn segments_bytes(image: &Image) -> u64
    ensures { result ≡ min (length (segment_bytes image.now.segments)) (2 ^ 64 - 1) }
{
    let mut bytes = 0u64;
    for segment in image.segments() {
        bytes = bytes.saturating_add(segment.memory().len() as u64);
    }
    bytes
}

/// Returns the number of bytes of the names of all objects, or 2^64 - 1 if the number is greater.
fn objects_bytes(image: &Image) -> u64
    ensures { result ≡ min (length (object_names image.now.objects)) (2 ^ 64 - 1) }
{
    let mut bytes = 0u64;
    for object in image.objects() {
        bytes = bytes.saturating_add(name_bytes(&object.name));
    }
    bytes
}

/// Puts the places of an image's segments into `places`, and the bytes of the segments, one after
/// the other, into `bytes`. Returns the number of these bytes, or `None` if a buffer is too small.
fn put_segments(image: &Image, places: &mut [SegmentPlace], bytes: &mut [u8]) -> Option<usize>
    ensures end { IfSome result (λ end. end ≡ length (segment_bytes image.now.segments)) }
    ensures bytes { IfSome result (λ end.
        take end bytes.new ≡ segment_bytes image.now.segments) }
    ensures places { IfSome result (λ _. take (length image.now.segments) places.new
        ≡ places_of 0 image.now.segments) }
    ensures size { length bytes.new ≡ length bytes.old }
    ensures small { IfNone result ((length places.old < length image.now.segments)
        ⊎ (length bytes.old < length (segment_bytes image.now.segments))) }
{
    let mut at = 0usize;
    for (i, segment) in image.segments().iter().enumerate() {
        if i >= places.len() {
            return None;
        }
        places[i] = place_of(segment, at);
        at = put_memory(bytes, at, &segment.memory())?;
    }
    Some(at)
}

/// Puts the places of an image's objects into `places`, and the objects' names into `bytes`, from
/// offset `from` on. Returns the offset after the last name, or `None` if a buffer is too small.
fn put_objects(
    image: &Image,
    from: usize,
    places: &mut [ObjectPlace],
    bytes: &mut [u8],
) -> Option<usize>
    ensures end { IfSome result (λ end. end ≡ from + length (object_names image.now.objects)) }
    ensures bytes { IfSome result (λ end.
        take end bytes.new ≡ take from bytes.old ++ object_names image.now.objects) }
    ensures places { IfSome result (λ _. take (length image.now.objects) places.new
        ≡ object_places from 0 image.now.objects) }
    ensures small { IfNone result ((length places.old < length image.now.objects)
        ⊎ (length bytes.old < from + length (object_names image.now.objects))) }
{
    let mut at = from;
    let mut first_segment = 0usize;
    for (i, object) in image.objects().iter().enumerate() {
        if i >= places.len() {
            return None;
        }
        places[i] = object_place(object, at, first_segment);
        at = put_name(&object.name, at, bytes)?;
        first_segment = first_segment.saturating_add(object.segment_count);
    }
    Some(at)
}

/// Puts an image into the three buffers. Returns the number of bytes that the image has in `bytes`,
/// or `None` if a buffer is too small.
fn lay_out(
    image: &Image,
    objects: &mut [ObjectPlace],
    segments: &mut [SegmentPlace],
    bytes: &mut [u8],
) -> Option<usize>
    ensures end { IfSome result (λ end. end ≡ length (image_row image.now)) }
    ensures bytes { IfSome result (λ end. take end bytes.new ≡ image_row image.now) }
    ensures segments { IfSome result (λ _. take (length image.now.segments) segments.new
        ≡ places_of 0 image.now.segments) }
    ensures objects { IfSome result (λ _. take (length image.now.objects) objects.new
        ≡ object_places (length (segment_bytes image.now.segments)) 0 image.now.objects) }
    ensures small { IfNone result ((length objects.old < length image.now.objects)
        ⊎ (length segments.old < length image.now.segments)
        ⊎ (length bytes.old < length (image_row image.now))) }
{
    let at = put_segments(image, segments, bytes)?;
    put_objects(image, at, objects, bytes)
}

/// Puts an image into the three buffers. If a buffer is too small, the answer has the sizes that
/// are needed for all three buffers.
pub(crate) fn put_image(
    image: &Image,
    objects: &mut [ObjectPlace],
    segments: &mut [SegmentPlace],
    bytes: &mut [u8],
) -> Answer
    ensures { IsImageGiven image.now objects.new segments.new bytes.new result result.status }
{
    let counted = Answer {
        count: image.segments().len() as u64,
        objects: image.objects().len() as u64,
        ..Answer::of(DONE)
    };
    match lay_out(image, objects, segments, bytes) {
        Some(end) => Answer {
            bytes: end as u64,
            ..counted
        },
        None => Answer {
            status: NO_ROOM,
            bytes: segments_bytes(image).saturating_add(objects_bytes(image)),
            ..counted
        },
    }
}
