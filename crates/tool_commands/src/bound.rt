// Writes the executable file of a bound program, or reports why there is none.

ghost use Rattle.std.specs.Prelude.{◌≡◌, ◌≤◌, ◌++◌, OnOk};
ghost use Rattle.elf_file.specs.Header.{header_count};
ghost use Rattle.executable.specs.Outcome.{executable_refusal_text};
ghost use Rattle.program_parts.specs.Said.{AppendsFront};
ghost use Rattle.tool_commands.specs.Executable.{TellsExecutable, TellsFile, executable_status};
ghost use Rattle.tool_commands.specs.Executable.{many_headers_line};
ghost use Rattle.tool_parts.specs.Said.{said_line};

use executable::{Executable, ExecutableRefusal, executable_of, put_executable_refusal};
use image::Image;
use program_parts::{Line, Status, say};
use std::alloc::Global;
use std::io::Write;
use text_output::WriteFault;
use tool_parts::cannot_write;

/// The maximum number of program headers that fit in one page of 4,096 bytes.
const MOST_IN_A_PAGE: u16 = 73;

/// If `file` has more program headers than fit in a page, warns that Linux before 6.17 doesn't
/// start the file.
fn say_many_headers<E: Write>(file: &Executable, errors: &mut E)
    ensures said { AppendsFront (E.contents errors.old) (E.contents errors.new)
        many_headers_line }
    ensures silent { header_count file.now ≤ MOST_IN_A_PAGE
        → E.contents errors.new ≡ E.contents errors.old }
{
    if file.header_count() > MOST_IN_A_PAGE {
        say(
            errors,
            b"rlibreg-tool: Linux before 6.17 starts no file with more than 73 program headers\n",
        );
    }
}

/// Writes `file` to the output, or reports that the output failed.
fn write_executable<O: Write, E: Write>(file: &Executable, output: &mut O, errors: &mut E) -> Status
    ensures { TellsFile file.now (record {
      before = O.contents output.old;
      after = O.contents output.new;
      errors_before = E.contents errors.old;
      errors_after = E.contents errors.new;
    }) result }
{
    match file.write_to(output) {
        Ok(()) => {
            say_many_headers(file, errors);
            Status::Done
        }
        Err(_) => cannot_write(errors),
    }
}

/// Appends to `line` the line that reports why there is no executable file.
fn spell_executable_refusal(
    line: &mut Vec<u8>,
    refusal: &ExecutableRefusal,
) -> Result<(), WriteFault>
    ensures { OnOk result (line.new.items
        ≡ line.old.items ++ said_line (executable_refusal_text refusal.now)) }
{
    let mut text = Line::new();
    text.put(line, b"rlibreg-tool: ")?;
    put_executable_refusal(&mut text, line, refusal)?;
    text.send(line)
}

/// Returns the status for a bound program that has no executable file.
fn executable_status(refusal: &ExecutableRefusal) -> Status
    ensures { result ≡ executable_status refusal.now }
{
    match refusal {
        ExecutableRefusal::OutOfMemory => Status::NoMemory,
        _ => Status::Refused,
    }
}

/// Reports why there is no executable file, if there is memory for the line. Returns the status.
fn say_executable_refusal<E: Write>(
    alloc: Global,
    refusal: &ExecutableRefusal,
    errors: &mut E,
) -> Status
    ensures status { result ≡ executable_status refusal.now }
    ensures said { AppendsFront (E.contents errors.old) (E.contents errors.new)
        (said_line (executable_refusal_text refusal.now)) }
{
    let mut line = Vec::new(alloc);
    if spell_executable_refusal(&mut line, refusal).is_ok() {
        say(errors, &line);
    }
    executable_status(refusal)
}

/// Writes the executable file of an image, or reports why there is none.
pub(crate) fn tell_executable<O: Write, E: Write>(
    alloc: Global,
    image: &Image,
    output: &mut O,
    errors: &mut E,
) -> Status
    ensures { TellsExecutable image.now (record {
      before = O.contents output.old;
      after = O.contents output.new;
      errors_before = E.contents errors.old;
      errors_after = E.contents errors.new;
    }) result }
{
    match executable_of(alloc, image) {
        Ok(file) => write_executable(&file, output, errors),
        Err(refusal) => say_executable_refusal(alloc, &refusal, errors),
    }
}
