// Writes the answer for a disk on which a registry was opened, made or upgraded.

ghost use Rattle.commands.specs.Disk.{disk_answer_text};
ghost use Rattle.program_parts.specs.Told.{IsTold};
ghost use Rattle.commands.specs.Status.{disk_answer_status};

use program_parts::{Status, write_disk_refusal, write_reply};
use requests::Reply;
use std::io::Write;
use store::StoreRefusal;

/// Writes `ok`, or the line of the refusal, and returns the status of the answer. If the output
/// fails, returns `Failed`.
pub fn write_disk_answer<O: Write>(answer: Result<(), StoreRefusal>, output: &mut O) -> Status
    ensures { IsTold (disk_answer_status answer) (disk_answer_text answer)
        (O.contents output.old) (O.contents output.new) result }
{
    match answer {
        Ok(()) => match write_reply(output, &Reply::Done) {
            Ok(()) => Status::Done,
            Err(_) => Status::Failed,
        },
        Err(refusal) => match write_disk_refusal(output, refusal) {
            Ok(()) => Status::of_disk(refusal),
            Err(_) => Status::Failed,
        },
    }
}
