// Plans an update: several changes in one plan.
ghost use Rattle.std.specs.Prelude.{◌≡◌, ◌≢◌, List};
ghost use Rattle.requests.specs.Request.{Request};
ghost use Rattle.c_answers.specs.Answers.{IsLeft};
ghost use Rattle.c_answers.specs.Changes.{Mean};
ghost use Rattle.c_answers.specs.Update.{IsUpdateAnswered, IsUpdatePlan};

use c_answers::{Answer, ChangePlace, plan_update};
use std::alloc::Global;

/// Plans an update with the changes `changes`, whose bytes are in the buffer `bytes`. The plan
/// makes all of the changes or none.
#[unsafe(no_mangle)]
pub extern "C" fn rlibreg_plan_update(
    alloc: Global,
    disk: &[u8],
    changes: &[ChangePlace],
    bytes: &[u8],
    plan: &mut [u8],
    text: &mut [u8],
    answer: &mut Answer,
) -> u32
    // The plan leads from the state that the bytes hold to the state after all changes.
    ensures plan { result ≡ 0 → (requests : List Request) × Mean bytes.now changes.now requests
        × IsUpdatePlan disk.now requests plan.new answer.new }
    ensures answered { IsUpdateAnswered disk.now changes.now bytes.now plan.new text.new answer.new
        result }
    ensures left { IsLeft plan.old plan.new result }
    ensures status { answer.new.status ≡ result }

    // The result is never S1 (Device), because a disk of bytes fails only if memory is refused.
    ensures device { result ≢ 301 }
{
    *answer = plan_update(alloc, disk, changes, bytes, plan, text);
    answer.status
}
