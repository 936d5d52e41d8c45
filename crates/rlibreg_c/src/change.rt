// Plans changes of a registry's libraries.
ghost use Rattle.requests.specs.Request.{install, replace, remove};
ghost use Rattle.rlibreg_c.specs.Planned.{IsPlanned};

use c_answers::{Answer, plan_change};
use requests::Command;
use std::alloc::Global;

/// Plans to install the library with the bytes `file`.
#[unsafe(no_mangle)]
pub extern "C" fn rlibreg_plan_install(
    alloc: Global,
    disk: &[u8],
    file: &[u8],
    plan: &mut [u8],
    text: &mut [u8],
    answer: &mut Answer,
) -> u32
    // The plan leads from the state that the bytes hold to the state after the accepted change.
    ensures planned { IsPlanned disk.now (install file.now) plan.old plan.new text.new answer.new
        result }
{
    *answer = plan_change(alloc, disk, &Command::Install(file), plan, text);
    answer.status
}

/// Plans to replace the library that has the same name as the library with the bytes `file`.
#[unsafe(no_mangle)]
pub extern "C" fn rlibreg_plan_replace(
    alloc: Global,
    disk: &[u8],
    file: &[u8],
    plan: &mut [u8],
    text: &mut [u8],
    answer: &mut Answer,
) -> u32
    // The plan leads from the state that the bytes hold to the state after the accepted change.
    ensures planned { IsPlanned disk.now (replace file.now) plan.old plan.new text.new answer.new
        result }
{
    *answer = plan_change(alloc, disk, &Command::Replace(file), plan, text);
    answer.status
}

/// Plans to remove the library named `name`.
#[unsafe(no_mangle)]
pub extern "C" fn rlibreg_plan_remove(
    alloc: Global,
    disk: &[u8],
    name: &[u8],
    plan: &mut [u8],
    text: &mut [u8],
    answer: &mut Answer,
) -> u32
    // The plan leads from the state that the bytes hold to the state after the accepted change.
    ensures planned { IsPlanned disk.now (remove name.now) plan.old plan.new text.new answer.new
        result }
{
    *answer = plan_change(alloc, disk, &Command::Remove(name), plan, text);
    answer.status
}
