// The executable file of a bound program.
ghost use Rattle.std.specs.Prelude.{◌≡◌, ◌≢◌};
ghost use Rattle.requests.specs.Request.{bind};
ghost use Rattle.c_answers.specs.Executable.{IsExecutableAnswered, IsExecutableFileOf};

use c_answers::{Answer, executable_on};
use requests::Command;
use std::alloc::Global;

/// Makes the static executable file of a program with the registry that the sectors of `disk` hold.
/// The kernel loads exactly the image from it that `rlibreg_bind` returns at this base.
#[unsafe(no_mangle)]
pub extern "C" fn rlibreg_executable(
    alloc: Global,
    disk: &[u8],
    program: &[u8],
    base: u64,
    bytes: &mut [u8],
    text: &mut [u8],
    answer: &mut Answer,
) -> u32
    // The file is that of the image that is defined for the state that the bytes of the disk hold.
    ensures executable { result ≡ 0
        → IsExecutableFileOf disk.now program.now base bytes.new answer.new }
    ensures answered { IsExecutableAnswered disk.now (bind program.now base) bytes.new text.new
        answer.new result }
    ensures left { result ≢ 0 → bytes.new ≡ bytes.old }
    ensures status { answer.new.status ≡ result }

    // The result is never S1 (Device), because a disk of bytes fails only if memory is refused.
    ensures device { result ≢ 301 }
{
    let command = Command::Bind { program, base };
    *answer = executable_on(alloc, disk, &command, bytes, text);
    answer.status
}
