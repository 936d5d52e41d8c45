// Binds a program.
ghost use Rattle.requests.specs.Request.{request_of};
ghost use Rattle.c_answers.specs.Answers.{IsBindAnswered, IsBindTold};

use crate::answer::Answer;
use crate::buffers::put_image;
use crate::object::ObjectPlace;
use crate::place::SegmentPlace;
use crate::text::{tell, turn_away};
use byte_registry::ask;
use requests::{Command, Reply};
use std::alloc::Global;

/// Puts the image of the reply into the buffers. If the reply has no image, reports the reply.
fn tell_bind(
    alloc: Global,
    reply: &Reply,
    objects: &mut [ObjectPlace],
    segments: &mut [SegmentPlace],
    bytes: &mut [u8],
    text: &mut [u8],
) -> Answer
    ensures { IsBindTold reply.now objects.new segments.new bytes.new text.new result
        result.status }
{
    match reply {
        Reply::Bound(image) => put_image(image, objects, segments, bytes),
        Reply::Done => tell(alloc, reply, text),
        Reply::Listing(_) => tell(alloc, reply, text),
        Reply::Refused(_) => tell(alloc, reply, text),
    }
}

/// Binds a program with the registry on the disk `disk`, and puts the image into the buffers. If
/// this is impossible, reports why.
pub fn bind_on(
    alloc: Global,
    disk: &[u8],
    command: &Command<'_>,
    objects: &mut [ObjectPlace],
    segments: &mut [SegmentPlace],
    bytes: &mut [u8],
    text: &mut [u8],
) -> Answer
    ensures { IsBindAnswered disk.now (request_of command.now) objects.new segments.new bytes.new
        text.new result result.status }
{
    match ask(alloc, disk, command) {
        Ok((reply, _)) => tell_bind(alloc, &reply, objects, segments, bytes, text),
        Err((refusal, _)) => turn_away(alloc, refusal, text),
    }
}
