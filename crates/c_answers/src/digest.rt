// Puts the digest of a library's bytes into a buffer.
ghost use Rattle.std.specs.Prelude.{◌≡◌, ◌≢◌};
ghost use Rattle.c_answers.specs.Contents.{IsDigestAnswered};

use crate::answer::Answer;
use crate::file::refusal_of;
use crate::status::DONE;
use crate::text::{tell, turn_away};
use byte_registry::contents_of;
use requests::Reply;
use std::alloc::Global;

/// Puts the SHA-256 of the bytes of the library `name` into `digest`. If this is impossible,
/// reports why.
pub fn digest_on(
    alloc: Global,
    disk: &[u8],
    name: &[u8],
    digest: &mut [u8; 32],
    text: &mut [u8],
) -> Answer
    ensures answered { IsDigestAnswered disk.now name.now digest.new text.new result
        result.status }
    ensures left { result.status ≢ 0 → digest.new ≡ digest.old }
{
    match contents_of(alloc, disk) {
        Ok(contents) => {
            let mut contents = contents;
            let read = contents.digest(alloc, name);
            let _ = contents.into_disk();
            match read {
                Ok(given) => {
                    *digest = given;
                    Answer::of(DONE)
                }
                Err(unread) => tell(alloc, &Reply::Refused(refusal_of(unread)), text),
            }
        }
        Err(refusal) => turn_away(alloc, refusal, text),
    }
}
