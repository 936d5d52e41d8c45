// The exit status of a program.

ghost use Rattle.std.specs.Prelude.{◌≡◌};
ghost use Rattle.program_parts.specs.Status.{status_number, disk_status};
ghost use Rattle.program_parts.specs.Status.{refusal_status, reply_status};

use image::BindRefusal;
use requests::{Refusal, Reply};
use store::StoreRefusal;

/// The exit status of a program.
#[derive(Clone, Copy, PartialEq, Eq)]
pub enum Status {
    /// The command was carried out.
    Done = 0,
    /// The command was refused.
    Refused = 1,
    /// The arguments have none of the program's forms.
    BadWords = 2,
    /// The disk, a file or a standard stream failed.
    Failed = 3,
    /// Memory was refused.
    NoMemory = 4,
}

impl Status {
    /// Returns the number with which the process exits.
    pub fn number(self) -> u8
        ensures { result ≡ status_number self }
    {
        self as u8
    }

    /// Returns the status after a disk was refused with `refusal`.
    pub fn of_disk(refusal: StoreRefusal) -> Status
        ensures { result ≡ disk_status refusal }
    {
        match refusal {
            StoreRefusal::Device | StoreRefusal::Reopen => Status::Failed,
            StoreRefusal::OutOfMemory => Status::NoMemory,
            _ => Status::Refused,
        }
    }
    /// Returns the status after a command was refused with `refusal`.
    fn of_refusal(refusal: &Refusal) -> Status
        ensures { result ≡ refusal_status refusal.now }
    {
        match refusal {
            Refusal::Device | Refusal::Reopen => Status::Failed,
            Refusal::OutOfMemory | Refusal::Bind(BindRefusal::OutOfMemory) => Status::NoMemory,
            _ => Status::Refused,
        }
    }

    /// Returns the status after a reply.
    pub fn of_reply(reply: &Reply) -> Status
        ensures { result ≡ reply_status reply.now }
    {
        match reply {
            Reply::Refused(refusal) => Status::of_refusal(refusal),
            _ => Status::Done,
        }
    }
}
