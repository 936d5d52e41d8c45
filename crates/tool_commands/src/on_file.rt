// Opens the file of a disk, and carries out the action of the arguments.
//
// These functions have up to eight arguments, because each stream is an argument of its own: a
// contract compares the contents of each stream before and after a call, and only `update` has an
// input.

ghost use Rattle.std.specs.Prelude.{◌≡◌, false};
ghost use Rattle.requests.specs.Request.{request_of};
ghost use Rattle.tool_commands.specs.Form.{deed_of, question_of, reads_input};
ghost use Rattle.tool_commands.specs.Outcome.{AskEnds, BindingsAskEnds, DeedEnds, TellEnds};
ghost use Rattle.tool_commands.specs.Outcome.{SaysFault, SaysUnread, UpdateAskEnds};
ghost use Rattle.tool_commands.specs.Outcome.{open_status, read_status};
ghost use Rattle.tool_commands.specs.inside.WithFile.{AskEndsWith, BindingsEndWith};

use crate::form::{Action, Asked, Form};
use crate::request::run_request;
use crate::run::{end_unopened, run_form};
use crate::said::cannot_read;
use crate::symbols::run_bindings;
use crate::telling::Telling;
use crate::with_file::WithFile;
use file_disk::{Access, FileDisk, OpenFault};
use program_parts::{FileFault, Status, read_file};
use requests::Command;
use std::alloc::Global;
use std::fs::File;
use std::io::{Read, Write};
use std::rt::{Clock, Files};
use store::StoreRefusal;
use tool_parts::say_refusal;
use updates::run_update;

/// Reports why the file of a disk can't be opened, and returns the status.
fn not_opened<E: Write>(alloc: Global, path: &str, fault: OpenFault, errors: &mut E) -> Status
    ensures status { result ≡ open_status fault }
    ensures said { SaysFault fault (E.contents errors.old) (E.contents errors.new) }
{
    match fault {
        OpenFault::CannotOpen => cannot_read(errors, path),
        OpenFault::BadLength(_) => say_refusal(alloc, StoreRefusal::BadGeometry, errors),
        OpenFault::OutOfMemory => say_refusal(alloc, StoreRefusal::OutOfMemory, errors),
    }
}

/// Opens the disk only for reading, and answers a question about it. Keeps the disk locked until
/// the output is written.
fn tell<R: Files<File = File> + Clock, O: Write, E: Write>(
    rt: &R,
    alloc: Global,
    path: &str,
    form: &Form<'_>,
    output: &mut O,
    errors: &mut E,
) -> Status
    ensures { TellEnds (question_of form.now) (record {
      before = O.contents output.old;
      after = O.contents output.new;
      errors_before = E.contents errors.old;
      errors_after = E.contents errors.new;
    }) result }
{
    match FileDisk::open(rt, alloc, path, Access::Reading) {
        Ok(disk) => {
            let (status, disk) = run_form(alloc, disk, form, output, errors);
            drop(disk);
            status
        }
        Err(fault) => {
            let said = not_opened(alloc, path, fault, errors);
            end_unopened(form, said, output)
        }
    }
}

/// Opens a disk, applies a command to its registry, and writes the reply. Keeps the disk locked
/// until the output is written.
fn ask<R: Files<File = File> + Clock, O: Write, E: Write>(
    rt: &R,
    alloc: Global,
    path: &str,
    access: Access,
    command: &Command<'_>,
    telling: Telling,
    output: &mut O,
    errors: &mut E,
) -> Status
    ensures { AskEnds (request_of command.now) telling
        (record {
          before = O.contents output.old;
          after = O.contents output.new;
          errors_before = E.contents errors.old;
          errors_after = E.contents errors.new;
        }) result }
{
    match FileDisk::open(rt, alloc, path, access) {
        Ok(disk) => {
            let (status, disk) = run_request(alloc, disk, command, telling, output, errors);
            drop(disk);
            status
        }
        Err(fault) => not_opened(alloc, path, fault, errors),
    }
}

/// Reports why a file can't be read, and returns the status.
fn not_read<E: Write>(alloc: Global, path: &str, fault: FileFault, errors: &mut E) -> Status
    ensures status { result ≡ read_status fault }
    ensures said { SaysUnread fault (E.contents errors.old) (E.contents errors.new) }
{
    match fault {
        FileFault::CannotRead => cannot_read(errors, path),
        FileFault::OutOfMemory => say_refusal(alloc, StoreRefusal::OutOfMemory, errors),
    }
}

/// Reads a file, then opens the disk, and makes a request with the file's bytes.
fn ask_with<R: Files<File = File> + Clock, O: Write, E: Write>(
    rt: &R,
    alloc: Global,
    path: &str,
    asking: WithFile,
    file: &str,
    output: &mut O,
    errors: &mut E,
) -> Status
    ensures { AskEndsWith asking (record {
      before = O.contents output.old;
      after = O.contents output.new;
      errors_before = E.contents errors.old;
      errors_after = E.contents errors.new;
    }) result }
{
    match read_file(rt, alloc, file) {
        Ok(bytes) => {
            let command = asking.command(&bytes);
            ask(
                rt,
                alloc,
                path,
                asking.access(),
                &command,
                asking.telling(),
                output,
                errors,
            )
        }
        Err(fault) => not_read(alloc, file, fault, errors),
    }
}

/// Opens the disk only for reading, and writes the bindings of a program's symbols. Keeps the disk
/// locked until the output is written.
fn tell_bindings<R: Files<File = File> + Clock, O: Write, E: Write>(
    rt: &R,
    alloc: Global,
    path: &str,
    program: &[u8],
    base: u64,
    output: &mut O,
    errors: &mut E,
) -> Status
    ensures { BindingsAskEnds program.now base (record {
      before = O.contents output.old;
      after = O.contents output.new;
      errors_before = E.contents errors.old;
      errors_after = E.contents errors.new;
    }) result }
{
    match FileDisk::open(rt, alloc, path, Access::Reading) {
        Ok(disk) => {
            let (status, disk) = run_bindings(alloc, disk, program, base, output, errors);
            drop(disk);
            status
        }
        Err(fault) => not_opened(alloc, path, fault, errors),
    }
}

/// Reads a program, then opens the disk, and writes the bindings of the program's symbols.
fn tell_file_bindings<R: Files<File = File> + Clock, O: Write, E: Write>(
    rt: &R,
    alloc: Global,
    path: &str,
    program: &str,
    base: u64,
    output: &mut O,
    errors: &mut E,
) -> Status
    ensures { BindingsEndWith base (record {
      before = O.contents output.old;
      after = O.contents output.new;
      errors_before = E.contents errors.old;
      errors_after = E.contents errors.new;
    }) result }
{
    match read_file(rt, alloc, program) {
        Ok(bytes) => tell_bindings(rt, alloc, path, &bytes, base, output, errors),
        Err(fault) => not_read(alloc, program, fault, errors),
    }
}

/// Opens a disk with an exclusive lock, and runs an update of the disk's registry. Keeps the disk
/// locked until the output is written.
fn update<R: Files<File = File> + Clock, I: Read, O: Write, E: Write>(
    rt: &R,
    alloc: Global,
    path: &str,
    input: &mut I,
    output: &mut O,
    errors: &mut E,
) -> Status
    ensures { UpdateAskEnds O.contents (record {
      unread = I.remaining input.old;
      before = O.contents output.old;
      after = O.contents output.new;
      errors_before = E.contents errors.old;
      errors_after = E.contents errors.new;
    }) result }
{
    match FileDisk::open(rt, alloc, path, Access::Changes) {
        Ok(disk) => {
            let (status, disk) = run_update(alloc, disk, input, output, errors);
            drop(disk);
            status
        }
        Err(fault) => not_opened(alloc, path, fault, errors),
    }
}

/// Carries out the action of the arguments.
pub(crate) fn run_asked<R: Files<File = File> + Clock, I: Read, O: Write, E: Write>(
    rt: &R,
    alloc: Global,
    asked: &Asked<'_>,
    input: &mut I,
    output: &mut O,
    errors: &mut E,
) -> Status
    ensures ends { DeedEnds O.contents (deed_of asked.now.action) (record {
      unread = I.remaining input.old;
      before = O.contents output.old;
      after = O.contents output.new;
      errors_before = E.contents errors.old;
      errors_after = E.contents errors.new;
    }) result }
    ensures unread { reads_input (deed_of asked.now.action) ≡ false → input.new ≡ input.old }
{
    let disk = asked.disk;
    match asked.action {
        Action::Tell(form) => tell(rt, alloc, disk, &form, output, errors),
        Action::Replace(file) => {
            ask_with(rt, alloc, disk, WithFile::Replace, file, output, errors)
        }
        Action::Remove(name) => {
            let command = Command::Remove(name.as_bytes());
            let access = Access::Changes;
            ask(
                rt,
                alloc,
                disk,
                access,
                &command,
                Telling::Text,
                output,
                errors,
            )
        }
        Action::Update => update(rt, alloc, disk, input, output, errors),
        Action::Executable { program, base } => {
            let asking = WithFile::Executable { base };
            ask_with(rt, alloc, disk, asking, program, output, errors)
        }
        Action::Bindings { program, base } => {
            tell_file_bindings(rt, alloc, disk, program, base, output, errors)
        }
    }
}
