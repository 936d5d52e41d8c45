// Plans new preloads.
ghost use Rattle.std.specs.Prelude.{◌≡◌, ◌≢◌, ℕ, List};
ghost use Rattle.requests.specs.Request.{set_preloads};
ghost use Rattle.c_answers.specs.Answers.{IsLeft, IsPlanOf, IsPreloadAnswered};
ghost use Rattle.c_answers.specs.Names.{AreNames};

use c_answers::{Answer, plan_preloads};
use std::alloc::Global;

/// Plans to set the preloads. `names` has the names of the new preloads in their new order, each
/// followed by a byte 0.
#[unsafe(no_mangle)]
pub extern "C" fn rlibreg_plan_preload(
    alloc: Global,
    disk: &[u8],
    names: &[u8],
    plan: &mut [u8],
    text: &mut [u8],
    answer: &mut Answer,
) -> u32
    // The plan leads from the state that the bytes hold to the state after the accepted change.
    ensures plan { result ≡ 0 → (list : List (List ℕ)) × AreNames list names.now
        × IsPlanOf disk.now (set_preloads list) plan.new answer.new }
    ensures answered { IsPreloadAnswered disk.now names.now plan.new text.new answer.new result }
    ensures left { IsLeft plan.old plan.new result }
    ensures status { answer.new.status ≡ result }

    // The result is never S1 (Device), because a disk of bytes fails only if memory is refused.
    ensures device { result ≢ 301 }
{
    *answer = plan_preloads(alloc, disk, names, plan, text);
    answer.status
}
