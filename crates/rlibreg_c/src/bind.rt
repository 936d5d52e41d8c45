// Binds a program.
ghost use Rattle.std.specs.Prelude.{◌≡◌, ◌≢◌};
ghost use Rattle.requests.specs.Request.{bind};
ghost use Rattle.c_answers.specs.Answers.{IsBindAnswered};
ghost use Rattle.c_answers.specs.Buffers.{IsImageOf};

use c_answers::{Answer, ObjectPlace, SegmentPlace, bind_on};
use requests::Command;
use std::alloc::Global;

/// Binds a program at `base` with the registry that the sectors of `disk` hold. Puts the image's
/// objects in load order, its segments, and its bytes into the buffers: the bytes of the segments
/// one after the other, followed by the objects' names. If a buffer is too small, returns the sizes
/// that are needed for all three buffers.
#[unsafe(no_mangle)]
pub extern "C" fn rlibreg_bind(
    alloc: Global,
    disk: &[u8],
    program: &[u8],
    base: u64,
    objects: &mut [ObjectPlace],
    segments: &mut [SegmentPlace],
    bytes: &mut [u8],
    text: &mut [u8],
    answer: &mut Answer,
) -> u32
    ensures image { result ≡ 0
        → IsImageOf disk.now program.now base objects.new segments.new bytes.new answer.new }
    ensures answered { IsBindAnswered disk.now (bind program.now base) objects.new segments.new
        bytes.new text.new answer.new result }
    ensures status { answer.new.status ≡ result }

    // The result is never S1 (Device), because a disk of bytes fails only if memory is refused.
    ensures device { result ≢ 301 }
{
    let command = Command::Bind { program, base };
    *answer = bind_on(alloc, disk, &command, objects, segments, bytes, text);
    answer.status
}
