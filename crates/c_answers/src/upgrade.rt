// Plans an upgrade of a disk from version 1 to version 2.
ghost use Rattle.c_answers.specs.Answers.{IsLeft, IsUpgradeAnswered};

use crate::answer::Answer;
use crate::plan::put_done;
use crate::text::turn_away;
use byte_registry::upgrade;
use std::alloc::Global;

/// Puts the plan of an upgrade into the buffer, or reports why the disk can't be upgraded.
pub fn upgrade_on(alloc: Global, disk: &[u8], plan: &mut [u8], text: &mut [u8]) -> Answer
    ensures answered { IsUpgradeAnswered disk.now plan.new text.new result result.status }
    ensures left { IsLeft plan.old plan.new result.status }
{
    match upgrade(alloc, disk) {
        Ok(disk) => put_done(alloc, &disk, plan, text),
        Err((refusal, _)) => turn_away(alloc, refusal, text),
    }
}
