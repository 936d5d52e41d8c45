// Tests each library.
ghost use Rattle.std.specs.Prelude.{◌≡◌, ◌≢◌};
ghost use Rattle.c_answers.specs.Check.{IsCheckAnswered, IsCheckOf};

use c_answers::{Answer, FindingPlace, check_on};
use std::alloc::Global;

/// Tests each library of the registry that the sectors of `disk` hold, in the order of their
/// installation. Puts the numbers of the findings into `findings`, and the names, each followed by
/// a byte 0, into `names`. Reads each library's file once. Tests all other libraries even if one
/// isn't sound. If one of the two buffers is too small, reads no file, and returns the sizes that
/// are needed for both buffers.
#[unsafe(no_mangle)]
pub extern "C" fn rlibreg_check(
    alloc: Global,
    disk: &[u8],
    findings: &mut [FindingPlace],
    names: &mut [u8],
    text: &mut [u8],
    answer: &mut Answer,
) -> u32
    // The buffers have the finding for each library of the state that the bytes hold.
    ensures check { result ≡ 0 → IsCheckOf disk.now findings.new names.new answer.new }
    ensures answered { IsCheckAnswered disk.now findings.new names.new text.new answer.new result }
    ensures status { answer.new.status ≡ result }

    // The result is never S1 (Device), because a disk of bytes fails only if memory is refused.
    ensures device { result ≢ 301 }
{
    *answer = check_on(alloc, disk, findings, names, text);
    answer.status
}
