// Returns a library's bytes.
ghost use Rattle.std.specs.Prelude.{◌≡◌, ◌≢◌};
ghost use Rattle.c_answers.specs.Contents.{IsFileOf, IsFileAnswered};

use c_answers::{Answer, file_on};
use std::alloc::Global;

/// Returns the bytes of the library named `name` in the registry that the sectors of `disk` hold,
/// as they were installed. Reads no other library's file, and doesn't test whether the file is a
/// library.
#[unsafe(no_mangle)]
pub extern "C" fn rlibreg_file(
    alloc: Global,
    disk: &[u8],
    name: &[u8],
    bytes: &mut [u8],
    text: &mut [u8],
    answer: &mut Answer,
) -> u32
    // The bytes are those of the library with this name in the state that the bytes of the disk
    // hold.
    ensures file { result ≡ 0 → IsFileOf disk.now name.now bytes.new answer.new }
    ensures answered { IsFileAnswered disk.now name.now bytes.new text.new answer.new result }
    ensures status { answer.new.status ≡ result }

    // The result is never S1 (Device), because a disk of bytes fails only if memory is refused.
    ensures device { result ≢ 301 }
{
    *answer = file_on(alloc, disk, name, bytes, text);
    answer.status
}
