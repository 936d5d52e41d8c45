// Plans an empty registry.
ghost use Rattle.c_answers.specs.Answers.{IsFormatAnswered, IsLeft};

use crate::answer::Answer;
use crate::plan::put_done;
use crate::text::turn_away;
use byte_registry::format;
use std::alloc::Global;

/// Puts the plan of an empty registry into the buffer, or reports why there is none.
pub fn format_on(alloc: Global, disk: &[u8], plan: &mut [u8], text: &mut [u8]) -> Answer
    ensures answered { IsFormatAnswered disk.now plan.new text.new result result.status }
    ensures left { IsLeft plan.old plan.new result.status }
{
    match format(alloc, disk) {
        Ok(disk) => put_done(alloc, &disk, plan, text),
        Err((refusal, _)) => turn_away(alloc, refusal, text),
    }
}
