// Runs an update over the registry on a disk.

ghost use Rattle.std.specs.Prelude.{IsFalse};
ghost use Rattle.store.specs.Draft.{begun};
ghost use Rattle.updates.specs.Ends.{UpdateEnds};
ghost use Rattle.updates.specs.inside.Begun.{EndsBegun};

use crate::commit::commit_draft;
use crate::lines::{Ending, answer_lines};
use crate::report::{report_commit, report_refusal};
use crate::said::{no_memory, say_fault};
use program_parts::Status;
use registry::Registry;
use sector_disk::Disk;
use std::alloc::Global;
use std::io::{BufReader, Read, Write};
use tool_parts::say_refusal;

/// The maximum number of bytes that one read of the input requests.
const PAGE: usize = 0x10000;

/// Begins an update of a registry, answers its lines, and commits it or gives it up. Only this
/// function has both the output and the update, and it writes nothing itself: `answer_lines` writes
/// and can't commit, `commit_draft` commits and has no output, and `report_commit` writes `ok` and
/// has no disk.
fn run_opened<D: Disk, I: Read, O: Write, E: Write>(
    alloc: Global,
    registry: Registry<D>,
    input: &mut I,
    output: &mut O,
    errors: &mut E,
) -> (Status, Registry<D>)
    requires usable { IsFalse registry.failed }
    ensures { EndsBegun D.facts O.contents (begun registry) (record {
      unread = I.remaining input.old;
      before = O.contents output.old;
      after = O.contents output.new;
      errors_before = E.contents errors.old;
      errors_after = E.contents errors.new;
    }) result.0 result.1 }
{
    let Ok(mut pages) = BufReader::with_capacity(alloc, PAGE, input) else {
        return (no_memory(errors), registry);
    };
    let mut update = match registry.update() {
        Ok(update) => update,
        Err((_, registry)) => return (no_memory(errors), registry),
    };
    match answer_lines(alloc, &mut update, &mut pages, output) {
        Ok(Ending::Commit) => {
            let (answer, registry) = commit_draft(update);
            (report_commit(answer, output, errors), registry)
        }
        Ok(Ending::Refused(refusal)) => {
            (report_refusal(refusal, output, errors), update.give_up())
        }
        Err(fault) => (say_fault(fault, errors), update.give_up()),
    }
}

/// Runs an update of the registry on `disk`. Opens the registry without testing its libraries, so
/// that the update can replace or remove a library that is damaged or can't be read. Answers each
/// line up to `commit`: a change with `planned`, a listing with its text, and a bind with `bound`.
/// `commit` makes all changes at once, and is answered with `ok`; nothing after it is read. The
/// first refusal is written, ends the update, and leaves the disk's contents unchanged. A line that
/// has none of the forms, a line without a newline and the end of the input are refused too. Until
/// the commit writes its root, a stop leaves the state that the disk held.
///
/// If the disk is refused, memory for a line is refused, or a stream fails, reports this on
/// `errors`. If the output fails before the commit, nothing is changed. Returns the status and the
/// disk.
pub fn run_update<D: Disk, I: Read, O: Write, E: Write>(
    alloc: Global,
    disk: D,
    input: &mut I,
    output: &mut O,
    errors: &mut E,
) -> (Status, D)
    ensures { UpdateEnds D.facts disk O.contents (record {
      unread = I.remaining input.old;
      before = O.contents output.old;
      after = O.contents output.new;
      errors_before = E.contents errors.old;
      errors_after = E.contents errors.new;
    }) result.0 result.1 }
{
    match Registry::open_untested(alloc, disk) {
        Ok(registry) => {
            let (status, registry) = run_opened(alloc, registry, input, output, errors);
            (status, registry.into_disk())
        }
        Err((refusal, disk)) => (say_refusal(alloc, refusal, errors), disk),
    }
}
