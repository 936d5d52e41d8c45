// Puts the executable file of a bound program into a buffer.
ghost use Rattle.std.specs.Prelude.{◌≡◌, ◌≢◌, ◌⊎◌};
ghost use Rattle.elf_file.specs.Header.{header_count};
ghost use Rattle.requests.specs.Request.{request_of};
ghost use Rattle.c_answers.specs.Answers.{WantsMemory};
ghost use Rattle.c_answers.specs.Contents.{IsGiven};
ghost use Rattle.c_answers.specs.Executable.{IsBoundTold, IsExecutableAnswered};
ghost use Rattle.c_answers.specs.Executable.{IsExecutableTold, IsNoFileTold};
ghost use Rattle.c_answers.specs.Executable.{executable_number};
ghost use Rattle.c_answers.specs.Unsaid.{IsUncounted};

use crate::answer::Answer;
use crate::give::give;
use crate::status::{DONE, OUT_OF_MEMORY};
use crate::text::{put_text, tell, tell_memory, turn_away};
use byte_registry::ask;
use executable::{Executable, ExecutableRefusal, executable_of, write_executable_refusal};
use image::Image;
use requests::{Command, Reply};
use std::alloc::Global;

/// Returns the number of `refusal`. The numbers are from 401, in the order of the tests. 406 was
/// the number of a test that accepted every image, and isn't used again.
fn executable_status(refusal: &ExecutableRefusal) -> u32
    ensures { result ≡ executable_number refusal.now }
{
    match refusal {
        ExecutableRefusal::NoEntry => 401,
        ExecutableRefusal::StaticPie => 402,
        ExecutableRefusal::PreInitializers => 403,
        ExecutableRefusal::Initializers { name: _ } => 404,
        ExecutableRefusal::Finalizers { name: _ } => 405,
        ExecutableRefusal::TooManyHeaders => 407,
        ExecutableRefusal::WritableCode { name: _ } => 408,
        ExecutableRefusal::NoPages => 409,
        ExecutableRefusal::OutOfMemory => OUT_OF_MEMORY,
    }
}

/// Reports why there is no executable file.
fn tell_no_file(alloc: Global, refusal: &ExecutableRefusal, text: &mut [u8]) -> Answer
    ensures { IsNoFileTold refusal.now text.new result result.status }
{
    let mut whole = Vec::new(alloc);
    match write_executable_refusal(&mut whole, refusal) {
        Ok(()) => Answer {
            text: put_text(&whole, text),
            ..Answer::of(executable_status(refusal))
        },
        Err(_) => tell_memory(text),
    }
}

/// Puts an executable file into the buffer, or reports that memory for it was refused.
fn give_file(alloc: Global, file: &Executable, bytes: &mut [u8], text: &mut [u8]) -> Answer
    ensures given { IsGiven 0 (header_count file.now) file.now bytes.new result result.status
        ⊎ (WantsMemory text.new result.text result.file_refusal result.status
        × IsUncounted result) }
    ensures left { result.status ≢ 0 → bytes.new ≡ bytes.old }
{
    let mut whole = Vec::new(alloc);
    match file.write_to(&mut whole) {
        Ok(()) => give(DONE, u64::from(file.header_count()), &whole, bytes),
        Err(_) => tell_memory(text),
    }
}

/// Puts the executable file of an image into the buffer, or reports why there is none.
fn give_image(alloc: Global, image: &Image, bytes: &mut [u8], text: &mut [u8]) -> Answer
    ensures told { IsExecutableTold image.now bytes.new text.new result result.status }
    ensures left { result.status ≢ 0 → bytes.new ≡ bytes.old }
{
    match executable_of(alloc, image) {
        Ok(file) => give_file(alloc, &file, bytes, text),
        Err(refusal) => tell_no_file(alloc, &refusal, text),
    }
}

/// Puts the executable file for the image of the reply into the buffer. If the reply has no image,
/// reports the reply.
fn tell_bound(alloc: Global, reply: &Reply, bytes: &mut [u8], text: &mut [u8]) -> Answer
    ensures told { IsBoundTold reply.now bytes.new text.new result result.status }
    ensures left { result.status ≢ 0 → bytes.new ≡ bytes.old }
{
    match reply {
        Reply::Bound(image) => give_image(alloc, image, bytes, text),
        Reply::Done => tell(alloc, reply, text),
        Reply::Listing(_) => tell(alloc, reply, text),
        Reply::Refused(_) => tell(alloc, reply, text),
    }
}

/// Binds a program, and puts its executable file into the buffer. If this is impossible, reports
/// why. Needs up to six times the memory of the image.
pub fn executable_on(
    alloc: Global,
    disk: &[u8],
    command: &Command<'_>,
    bytes: &mut [u8],
    text: &mut [u8],
) -> Answer
    ensures answered { IsExecutableAnswered disk.now (request_of command.now) bytes.new text.new
        result result.status }
    ensures left { result.status ≢ 0 → bytes.new ≡ bytes.old }
{
    match ask(alloc, disk, command) {
        Ok((reply, _)) => tell_bound(alloc, &reply, bytes, text),
        Err((refusal, _)) => turn_away(alloc, refusal, text),
    }
}
