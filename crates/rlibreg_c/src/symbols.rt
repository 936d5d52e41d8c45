// Reports the bindings of the symbols of a program and its libraries.
ghost use Rattle.std.specs.Prelude.{◌≡◌, ◌≢◌};
ghost use Rattle.c_answers.specs.Bindings.{IsBindingsAnswered, IsBindingsOf, TellsText};

use c_answers::{Answer, bindings_on};
use std::alloc::Global;

/// Reports, as a text, the bindings of the symbols of a program and its libraries, with the
/// registry that the sectors of `disk` hold. If libraries are missing, the text is about the found
/// and the missing libraries instead. The status is the one that `rlibreg_bind` returns at this
/// base. There is a text with the statuses 0, B3 (Missing) and B5 (Undefined).
#[unsafe(no_mangle)]
pub extern "C" fn rlibreg_bindings(
    alloc: Global,
    disk: &[u8],
    program: &[u8],
    base: u64,
    bytes: &mut [u8],
    text: &mut [u8],
    answer: &mut Answer,
) -> u32
    // The text is the one that is defined for the state that the bytes of the disk hold.
    ensures bindings { TellsText result
        → IsBindingsOf disk.now program.now base bytes.new answer.new result }
    ensures answered { IsBindingsAnswered disk.now program.now base bytes.new text.new answer.new
        result }
    ensures left { result ≢ 0 → result ≢ 103 → result ≢ 105 → bytes.new ≡ bytes.old }
    ensures status { answer.new.status ≡ result }

    // The result is never S1 (Device), because a disk of bytes fails only if memory is refused.
    ensures device { result ≢ 301 }
{
    *answer = bindings_on(alloc, disk, program, base, bytes, text);
    answer.status
}
