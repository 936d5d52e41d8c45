// Returns the numbers of a whole registry.
ghost use Rattle.std.specs.Prelude.{◌≡◌, ◌≢◌};
ghost use Rattle.c_answers.specs.Contents.{IsInfoOf, IsInfoAnswered};

use c_answers::{Answer, Information, info_on};
use std::alloc::Global;

/// Returns the numbers of the whole registry that the sectors of `disk` hold. Reads no library's
/// file.
#[unsafe(no_mangle)]
pub extern "C" fn rlibreg_info(
    alloc: Global,
    disk: &[u8],
    information: &mut Information,
    text: &mut [u8],
    answer: &mut Answer,
) -> u32
    // The numbers are those of the state that the bytes hold, and of the sectors that this state
    // leaves unused.
    ensures info { result ≡ 0 → IsInfoOf disk.now information.new }
    ensures answered { IsInfoAnswered disk.now information.new text.new answer.new result }
    ensures left { result ≢ 0 → information.new ≡ information.old }
    ensures status { answer.new.status ≡ result }

    // The result is never S1 (Device), because a disk of bytes fails only if memory is refused.
    ensures device { result ≢ 301 }
{
    *answer = info_on(alloc, disk, information, text);
    answer.status
}
