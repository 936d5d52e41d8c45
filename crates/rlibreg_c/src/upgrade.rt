// Plans an upgrade of a disk from version 1 to version 2.
ghost use Rattle.std.specs.Prelude.{◌≡◌, ◌≢◌};
ghost use Rattle.c_answers.specs.Answers.{IsLeft, IsUpgradeAnswered, IsUpgradePlan};

use c_answers::{Answer, upgrade_on};
use std::alloc::Global;

/// Plans an upgrade of a registry of version 1 to version 2. If the registry is already of version
/// 2, the plan writes nothing.
#[unsafe(no_mangle)]
pub extern "C" fn rlibreg_plan_upgrade(
    alloc: Global,
    disk: &[u8],
    plan: &mut [u8],
    text: &mut [u8],
    answer: &mut Answer,
) -> u32
    // While the plan is carried out, a stop leaves the registry of version 1 or that of version 2.
    // After the whole plan, it leaves only that of version 2.
    ensures plan { result ≡ 0 → IsUpgradePlan disk.now plan.new answer.new }
    ensures answered { IsUpgradeAnswered disk.now plan.new text.new answer.new result }
    ensures left { IsLeft plan.old plan.new result }
    ensures status { answer.new.status ≡ result }

    // The result is never S1 (Device), because a disk of bytes fails only if memory is refused.
    ensures device { result ≢ 301 }
{
    *answer = upgrade_on(alloc, disk, plan, text);
    answer.status
}
