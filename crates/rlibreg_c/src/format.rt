// Plans an empty registry.
ghost use Rattle.std.specs.Prelude.{◌≡◌, ◌≢◌};
ghost use Rattle.c_answers.specs.Answers.{IsFormatAnswered, IsFormatPlan, IsLeft};

use c_answers::{Answer, format_on};
use std::alloc::Global;

/// Plans an empty registry on the disk `disk`.
#[unsafe(no_mangle)]
pub extern "C" fn rlibreg_plan_format(
    alloc: Global,
    disk: &[u8],
    plan: &mut [u8],
    text: &mut [u8],
    answer: &mut Answer,
) -> u32
    // While the plan is carried out, a stop leaves the old disk or the empty registry. After the
    // whole plan, it leaves only the empty registry.
    ensures plan { result ≡ 0 → IsFormatPlan disk.now plan.new answer.new }
    ensures answered { IsFormatAnswered disk.now plan.new text.new answer.new result }
    ensures left { IsLeft plan.old plan.new result }
    ensures status { answer.new.status ≡ result }

    // The result is never S1 (Device), because a disk of bytes fails only if memory is refused.
    ensures device { result ≢ 301 }
{
    *answer = format_on(alloc, disk, plan, text);
    answer.status
}
