// The exit status of the program.

ghost use Rattle.std.specs.Prelude.{◌≡◌};
ghost use Rattle.commands.specs.Status.{greatest, status_of, event_status, fault_status};
ghost use Rattle.commands.specs.Status.{lines_status};

use crate::show::Shown;
use binders::EventReply;
use program_parts::Status;
use scripts::ScriptFault;

/// Returns the status with the greater number.
pub(crate) fn greatest(status: Status, other: Status) -> Status
    ensures { result ≡ greatest status other }
{
    if status.number() < other.number() {
        other
    } else {
        status
    }
}

/// Returns the status after an image was written.
pub(crate) fn status_of(shown: Result<Shown, ScriptFault>) -> Status
    ensures { result ≡ status_of shown }
{
    match shown {
        Ok(Shown::Image) => Status::Done,
        Ok(Shown::Refused) => Status::Refused,
        Ok(Shown::NoMemory) => Status::NoMemory,
        Err(fault) => fault_status(fault),
    }
}

/// Returns the status after an event with this reply.
pub(crate) fn event_status(reply: &EventReply) -> Status
    ensures { result ≡ event_status reply.now }
{
    match reply {
        EventReply::Replied(reply) => Status::of_reply(reply),
        EventReply::Slot(_) | EventReply::Going => Status::Done,
    }
}

/// Returns the status of a script that ended early.
pub(crate) fn fault_status(fault: ScriptFault) -> Status
    ensures { result ≡ fault_status fault }
{
    match fault {
        ScriptFault::OutOfMemory => Status::NoMemory,
        ScriptFault::Read | ScriptFault::Write => Status::Failed,
    }
}

/// Returns the status of a script with `refused` refused lines.
pub(crate) fn lines_status(refused: u64) -> Status
    ensures { result ≡ lines_status refused }
{
    if refused == 0 {
        Status::Done
    } else {
        Status::Refused
    }
}
