// Puts the bytes of a whole file or a whole text into one buffer.
ghost use Rattle.std.specs.Prelude.{◌≡◌, ◌≢◌};
ghost use Rattle.c_answers.specs.Contents.{IsGiven};

use crate::answer::Answer;
use crate::put::put;
use crate::status::NO_ROOM;

/// Puts the bytes `given` into a buffer, and returns an answer with `status` and `count`. If the
/// buffer is too small, leaves the buffer unchanged, and returns the status `NO_ROOM` with the size
/// that is needed.
pub(crate) fn give(status: u32, count: u64, given: &[u8], bytes: &mut [u8]) -> Answer
    ensures given { IsGiven status count given.now bytes.new result result.status }
    ensures left { result.status ≢ status → bytes.new ≡ bytes.old }
{
    let status = match put(bytes, 0, given) {
        Some(_) => status,
        None => NO_ROOM,
    };
    Answer {
        count,
        bytes: given.len() as u64,
        ..Answer::of(status)
    }
}
