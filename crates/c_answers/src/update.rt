// Plans an update: several changes in one plan.
ghost use Rattle.std.specs.Prelude.{map};
ghost use Rattle.requests.specs.Request.{request_of};
ghost use Rattle.c_answers.specs.Answers.{IsLeft};
ghost use Rattle.byte_registry.specs.Plans.{synced_plan};
ghost use Rattle.c_answers.specs.Update.{IsAskedOrMemory, IsAskedTold, IsRefusedTold};
ghost use Rattle.c_answers.specs.Update.{IsUpdateAnswered, IsUpdateTold};
ghost use Rattle.c_answers.specs.Changes.{request_asked};

use crate::answer::Answer;
use crate::asked_change::{AskedChange, asked_changes, commands_of};
use crate::change_place::ChangePlace;
use crate::plan::put_done;
use crate::status::BAD_ARGUMENT;
use crate::text::{tell, tell_memory, turn_away};
use byte_disk::ByteDisk;
use byte_registry::ask_update;
use requests::{Command, Refusal, Reply};
use std::alloc::Global;

/// Reports the refused change and the reason. `before` is the number of changes before the refused
/// one.
fn tell_refusal(alloc: Global, before: usize, refusal: Refusal, text: &mut [u8]) -> Answer
    ensures { IsRefusedTold before refusal text.new result result.status }
{
    let reply = Reply::Refused(refusal);
    Answer {
        count: before as u64,
        ..tell(alloc, &reply, text)
    }
}

/// Reports the answer to an update. If the answer is `Ok`, also puts the plan of the update into
/// the buffer.
fn tell_update(
    alloc: Global,
    made: Result<(), (usize, Refusal)>,
    disk: &ByteDisk<'_>,
    plan: &mut [u8],
    text: &mut [u8],
) -> Answer
    ensures told { IsUpdateTold made (synced_plan disk.now) plan.new text.new result result.status }
    ensures left { IsLeft plan.old plan.new result.status }
{
    match made {
        Ok(()) => put_done(alloc, disk, plan, text),
        Err((before, refusal)) => tell_refusal(alloc, before, refusal, text),
    }
}

/// Plans an update with the changes `commands`, or reports why the update is refused.
fn plan_commands(
    alloc: Global,
    disk: &[u8],
    commands: &[Command<'_>],
    plan: &mut [u8],
    text: &mut [u8],
) -> Answer
    ensures answered { IsAskedTold disk.now (map request_of commands.now) plan.new text.new
        result result.status }
    ensures left { IsLeft plan.old plan.new result.status }
{
    match ask_update(alloc, disk, commands) {
        Ok((made, disk)) => tell_update(alloc, made, &disk, plan, text),
        Err((refusal, _)) => turn_away(alloc, refusal, text),
    }
}

/// Plans an update with the changes `asked`, or reports why the update is refused.
fn plan_asked(
    alloc: Global,
    disk: &[u8],
    asked: &[AskedChange<'_>],
    plan: &mut [u8],
    text: &mut [u8],
) -> Answer
    ensures answered { IsAskedOrMemory disk.now (map request_asked asked.now) plan.new text.new
        result result.status }
    ensures left { IsLeft plan.old plan.new result.status }
{
    match commands_of(alloc, asked) {
        Ok(commands) => plan_commands(alloc, disk, &commands, plan, text),
        Err(_) => tell_memory(text),
    }
}

/// Plans an update with `changes`, whose bytes are in the buffer `bytes`, or reports the refused
/// change and the reason. If a change isn't valid, tests no change.
pub fn plan_update(
    alloc: Global,
    disk: &[u8],
    changes: &[ChangePlace],
    bytes: &[u8],
    plan: &mut [u8],
    text: &mut [u8],
) -> Answer
    ensures answered { IsUpdateAnswered disk.now changes.now bytes.now plan.new text.new result
        result.status }
    ensures left { IsLeft plan.old plan.new result.status }
{
    match asked_changes(alloc, changes, bytes) {
        Ok(Some(asked)) => plan_asked(alloc, disk, &asked, plan, text),
        Ok(None) => Answer::of(BAD_ARGUMENT),
        Err(_) => tell_memory(text),
    }
}
