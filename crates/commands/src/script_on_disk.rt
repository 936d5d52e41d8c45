// Carries out `script DISK`.

ghost use Rattle.std.specs.Prelude.{◌≡◌, ◌≢◌, false};
ghost use Rattle.commands.specs.OnDisk.{DiskScriptEnds};
ghost use Rattle.commands.specs.Said.{base_text};
ghost use Rattle.commands.specs.inside.Ends.{IsRun, ScriptEnds, IsSaid};
ghost use Rattle.program_parts.specs.declared.status.Status.TheVariants.{BadWords, Done};

use crate::disk::{no_disk, turn_away};
use crate::disk_answer::write_disk_answer;
use crate::script::run_script;
use crate::status::{fault_status, greatest, lines_status};
use crate::watched::Watched;
use binders::Binders;
use file_disk::{Access, FileDisk};
use program_parts::Status;
use registry::Registry;
use sector_disk::Disk;
use std::alloc::Global;
use std::fs::File;
use std::io::{Read, Write};
use std::rt::{Clock, Files};

/// Runs a script over a registry with binders, and computes the greatest status of its replies,
/// which is `Done` before the first reply. Returns the greatest status of the replies and of the
/// script's end.
#[tactic(auto, using(crate::proofs::Statuses::after_lines, crate::proofs::Statuses::after_fault))]
pub(crate) fn run_watched<I: Read, O: Write, D: Disk>(
    alloc: Global,
    input: &mut I,
    output: &mut O,
    watched: &mut Watched<Binders<D>>,
) -> Status
    requires { watched.old.worst ≡ Done }
    ensures run { IsRun D.facts (record {
      unread = I.remaining input.old;
      before = O.contents output.old;
      after = O.contents output.new;
    }) watched.old.binders watched.new.binders result }
    ensures answers { result ≢ BadWords }
{
    match run_script(alloc, input, output, watched) {
        Ok(summary) => greatest(watched.worst, lines_status(summary.refused)),
        Err(fault) => greatest(watched.worst, fault_status(fault)),
    }
}

/// Opens the registry on `disk`, and runs the script that is in the input. If the disk is refused,
/// writes the line of the refusal, and reads nothing. Returns the greatest status of the script,
/// and the disk.
pub fn run_disk_script<D: Disk, I: Read, O: Write>(
    alloc: Global,
    disk: D,
    input: &mut I,
    output: &mut O,
) -> (Status, D)
    ensures ends { DiskScriptEnds D.facts disk (record {
      unread = I.remaining input.old;
      before = O.contents output.old;
      after = O.contents output.new;
    }) result.0 result.1 }
    ensures answers { result.0 ≢ BadWords }
{
    match Registry::open(alloc, disk) {
        Ok(registry) => {
            let mut watched = Watched {
                binders: Binders::new(alloc, registry),
                worst: Status::Done,
            };
            let status = run_watched(alloc, input, output, &mut watched);
            let Watched { binders, worst: _ } = watched;
            (status, binders.into_registry().into_disk())
        }
        Err((refusal, disk)) => (write_disk_answer(Err(refusal), output), disk),
    }
}

/// Carries out `script DISK`: runs the script in the input, and writes the answers to the output.
#[tactic(auto, using(crate::proofs::Statuses::away_script))]
pub(crate) fn script<R: Files<File = File> + Clock, I: Read, O: Write, E: Write>(
    rt: &R,
    alloc: Global,
    disk: &str,
    input: &mut I,
    output: &mut O,
    errors: &mut E,
) -> Status
    ensures ends { ScriptEnds (record {
      unread = I.remaining input.old;
      before = O.contents output.old;
      after = O.contents output.new;
    }) result }
    ensures said { IsSaid base_text (O.contents output.old) (O.contents output.new)
        (E.contents errors.old) (E.contents errors.new) result }
{
    match FileDisk::open(rt, alloc, disk, Access::Changes) {
        Ok(opened) => {
            let (status, opened) = run_disk_script(alloc, opened, input, output);
            drop(opened);
            status
        }
        Err(fault) => turn_away(no_disk(fault), disk, output, errors),
    }
}
