// Puts a library's bytes into a buffer.
ghost use Rattle.std.specs.Prelude.{◌≡◌};
ghost use Rattle.c_answers.specs.Contents.{refusal_of, IsFileAnswered};

use crate::answer::Answer;
use crate::give::give;
use crate::status::DONE;
use crate::text::{tell, turn_away};
use byte_registry::contents_of;
use contents::Unread;
use requests::{Refusal, Reply};
use std::alloc::Global;

/// Returns the refusal of a command for the reason why a library's bytes aren't returned.
pub(crate) fn refusal_of(unread: Unread) -> Refusal
    ensures { result ≡ refusal_of unread }
{
    match unread {
        Unread::NotInstalled => Refusal::NotInstalled,
        Unread::Unreadable => Refusal::Device,
        Unread::OutOfMemory => Refusal::OutOfMemory,
    }
}

/// Puts the bytes of the library `name` into the buffer. If this is impossible, reports why.
pub fn file_on(alloc: Global, disk: &[u8], name: &[u8], bytes: &mut [u8], text: &mut [u8]) -> Answer
    ensures { IsFileAnswered disk.now name.now bytes.new text.new result result.status }
{
    match contents_of(alloc, disk) {
        Ok(contents) => {
            let mut contents = contents;
            let read = contents.file(alloc, name);
            let _ = contents.into_disk();
            match read {
                Ok(file) => give(DONE, 0, &file, bytes),
                Err(unread) => tell(alloc, &Reply::Refused(refusal_of(unread)), text),
            }
        }
        Err(refusal) => turn_away(alloc, refusal, text),
    }
}
