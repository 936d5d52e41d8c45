// Answers a question about the contents of any disk.

ghost use Rattle.std.specs.Prelude.{codes, OnOk};
ghost use Rattle.std.specs.Io.KnownBytes.{Appends};
ghost use Rattle.states.specs.State.{State};
ghost use Rattle.store.specs.IsRead.{IsRead};
ghost use Rattle.store.specs.Opened.{IsAt};
ghost use Rattle.tool_commands.specs.AnyDisk.{FormTells};
ghost use Rattle.tool_commands.specs.Ends.{DiskEnds, EndsUnopened, FormEnds, FormReads};
ghost use Rattle.tool_commands.specs.Form.{question_of};

use crate::check::run_check;
use crate::digest::run_digest;
use crate::dump::run_dump;
use crate::file::run_file;
use crate::form::Form;
use crate::info::run_info;
use contents::Contents;
use program_parts::Status;
use sector_disk::Disk;
use std::alloc::Global;
use std::io::Write;
use text_output::{OutputBuffer, PIECE, WriteFault};
use tool_parts::say_refusal;

/// Writes `cut` as the whole script, so that no reader takes the output for a complete script.
fn cut_script<O: Write>(output: &mut O) -> Result<(), WriteFault>
    ensures { OnOk result (Appends (O.contents output.old) (O.contents output.new) (codes "cut")) }
{
    let mut text = OutputBuffer::<PIECE>::new();
    text.put(output, b"cut")?;
    text.send(output)
}

/// Ends a form whose disk couldn't be opened. If the form is a dump, writes `cut` as the whole
/// script. Returns `status`, or `Failed` if the output failed.
pub(crate) fn end_unopened<O: Write>(form: &Form<'_>, status: Status, output: &mut O) -> Status
    ensures { EndsUnopened (question_of form.now) status
        (O.contents output.old) (O.contents output.new) result }
{
    match form {
        Form::Dump(_) => match cut_script(output) {
            Ok(()) => status,
            Err(_) => Status::Failed,
        },
        _ => status,
    }
}

/// Answers a question about the contents of an opened disk.
fn run_opened<D: Disk, O: Write, E: Write>(
    contents: &mut Contents<D>,
    alloc: Global,
    form: &Form<'_>,
    output: &mut O,
    errors: &mut E,
) -> Status
    ensures read { IsRead D.facts contents.old contents.new }
    ensures ends { (s : State) → IsAt D.facts contents.old s
        → FormEnds D.facts contents.old contents.new.disk s (question_of form.now)
        (record {
          before = O.contents output.old;
          after = O.contents output.new;
          errors_before = E.contents errors.old;
          errors_after = E.contents errors.new;
        }) result }
    ensures told { FormTells (D.facts contents.old.disk) (D.facts contents.new.disk)
        (question_of form.now) (record {
          before = O.contents output.old;
          after = O.contents output.new;
          errors_before = E.contents errors.old;
          errors_after = E.contents errors.new;
        }) result }
    ensures calls { FormReads (D.facts contents.old.disk) (D.facts contents.new.disk)
        contents.old.entries (question_of form.now) }
{
    match *form {
        Form::Info => run_info(contents, output, errors),
        Form::Check => run_check(contents, alloc, output, errors),
        Form::Digest => run_digest(contents, alloc, output, errors),
        Form::File(name) => run_file(contents, alloc, name.as_bytes(), output, errors),
        Form::Dump(purpose) => run_dump(contents, alloc, purpose, output, errors),
    }
}

/// Opens the contents of `disk`, answers a question about them, and returns the status and the
/// disk. Writes nothing to the disk.
pub fn run_form<D: Disk, O: Write, E: Write>(
    alloc: Global,
    disk: D,
    form: &Form<'_>,
    output: &mut O,
    errors: &mut E,
) -> (Status, D)
    ensures { DiskEnds D.facts disk (question_of form.now) (record {
      before = O.contents output.old;
      after = O.contents output.new;
      errors_before = E.contents errors.old;
      errors_after = E.contents errors.new;
    }) result.0 result.1 }
{
    match Contents::open(alloc, disk) {
        Ok(contents) => {
            let mut contents = contents;
            let status = run_opened(&mut contents, alloc, form, output, errors);
            (status, contents.into_disk())
        }
        Err((refusal, disk)) => {
            let said = say_refusal(alloc, refusal, errors);
            (end_unopened(form, said, output), disk)
        }
    }
}
