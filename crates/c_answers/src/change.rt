// Plans changes of a registry's libraries.
ghost use Rattle.requests.specs.Request.{request_of};
ghost use Rattle.byte_registry.specs.Plans.{synced_plan};
ghost use Rattle.c_answers.specs.Answers.{IsChangeAnswered, IsChangeTold, IsLeft};

use crate::answer::Answer;
use crate::plan::put_done;
use crate::text::{tell, turn_away};
use byte_disk::ByteDisk;
use byte_registry::ask;
use requests::{Command, Reply};
use std::alloc::Global;

/// Reports the reply to a change. If the reply is Done, also puts the plan of the change into the
/// buffer.
fn tell_change(
    alloc: Global,
    reply: &Reply,
    disk: &ByteDisk<'_>,
    plan: &mut [u8],
    text: &mut [u8],
) -> Answer
    ensures told { IsChangeTold reply.now (synced_plan disk.now) plan.new text.new
        result result.status }
    ensures left { IsLeft plan.old plan.new result.status }
{
    match reply {
        Reply::Done => put_done(alloc, disk, plan, text),
        Reply::Listing(_) => tell(alloc, reply, text),
        Reply::Bound(_) => tell(alloc, reply, text),
        Reply::Refused(_) => tell(alloc, reply, text),
    }
}

/// Plans the change `command`: puts the plan into the buffer, or reports why the change is refused.
pub fn plan_change(
    alloc: Global,
    disk: &[u8],
    command: &Command<'_>,
    plan: &mut [u8],
    text: &mut [u8],
) -> Answer
    ensures answered { IsChangeAnswered disk.now (request_of command.now) plan.new text.new
        result result.status }
    ensures left { IsLeft plan.old plan.new result.status }
{
    match ask(alloc, disk, command) {
        Ok((reply, disk)) => tell_change(alloc, &reply, &disk, plan, text),
        Err((refusal, _)) => turn_away(alloc, refusal, text),
    }
}
