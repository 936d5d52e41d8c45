// Computes the digest of a library's bytes.
ghost use Rattle.std.specs.Prelude.{◌≡◌, ◌≢◌};
ghost use Rattle.c_answers.specs.Contents.{IsDigestOf, IsDigestAnswered};

use c_answers::{Answer, digest_on};
use std::alloc::Global;

/// Computes the SHA-256 of the bytes of the library named `name` in the registry that the sectors
/// of `disk` hold. The bytes are those that `rlibreg_file` returns.
#[unsafe(no_mangle)]
pub extern "C" fn rlibreg_digest(
    alloc: Global,
    disk: &[u8],
    name: &[u8],
    digest: &mut [u8; 32],
    text: &mut [u8],
    answer: &mut Answer,
) -> u32
    // The digest is that of the library with this name in the state that the bytes of the disk
    // hold.
    ensures digest { result ≡ 0 → IsDigestOf disk.now name.now digest.new }
    ensures answered { IsDigestAnswered disk.now name.now digest.new text.new answer.new result }
    ensures left { result ≢ 0 → digest.new ≡ digest.old }
    ensures status { answer.new.status ≡ result }

    // The result is never S1 (Device), because a disk of bytes fails only if memory is refused.
    ensures device { result ≢ 301 }
{
    *answer = digest_on(alloc, disk, name, digest, text);
    answer.status
}
