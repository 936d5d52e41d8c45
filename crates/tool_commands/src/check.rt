// Tests the installed libraries, and writes the findings.

ghost use Rattle.std.specs.Prelude.{◌≡◌, List, OnOk, length, sum_by};
ghost use Rattle.std.specs.List.{list_all};
ghost use Rattle.std.specs.Io.KnownBytes.{Appends};
ghost use Rattle.sector_disk.specs.Disk.{AreCallsAtMost};
ghost use Rattle.states.specs.State.{Library, State};
ghost use Rattle.store.specs.IsRead.{IsRead, file_sectors};
ghost use Rattle.store.specs.Opened.{IsAt};
ghost use Rattle.text_output.specs.Sends.{Sends};
ghost use Rattle.tool_commands.specs.AnyDisk.{CheckTells};
ghost use Rattle.tool_commands.specs.Check.{check_status, check_text, findings_text, is_sound};
ghost use Rattle.tool_commands.specs.Ends.{CheckEnds};
ghost use Rattle.tool_commands.specs.inside.Listed.{Lists};
ghost use Rattle.tool_parts.specs.Streams.{TellsOnly};

use crate::finding::{Line, put_finding};
use contents::{Contents, Finding};
use program_parts::Status;
use sector_disk::Disk;
use std::alloc::Global;
use std::io::Write;
use store::{Store, StoreRefusal};
use text_output::WriteFault;
use tool_parts::{cannot_write, say_refusal};

/// Appends a line for each library's finding to the buffered text, in the order of the libraries.
fn put_findings<D: Disk, W: Write>(
    store: &Store<D>,
    findings: &[Finding],
    line: &mut Line,
    out: &mut W,
) -> Result<(), WriteFault>
    requires { length findings.now ≡ length store.now.entries }
    ensures { (libraries : List Library) → Lists D.facts store.now libraries → OnOk result
        (Sends (W.contents out.old) line.old (W.contents out.new) line.new
        (findings_text libraries findings.now)) }
{
    for position in 0..store.count() {
        let name = store.name(position);
        put_finding(line, out, findings[position], name, store.length(position))?;
    }
    Ok(())
}

/// Appends a line for each library's finding, and then the line `end`, to the buffered text.
fn put_check<D: Disk, W: Write>(
    store: &Store<D>,
    findings: &[Finding],
    line: &mut Line,
    out: &mut W,
) -> Result<(), WriteFault>
    requires { length findings.now ≡ length store.now.entries }
    ensures { (libraries : List Library) → Lists D.facts store.now libraries → OnOk result
        (Sends (W.contents out.old) line.old (W.contents out.new) line.new
        (check_text libraries findings.now)) }
{
    put_findings(store, findings, line, out)?;
    line.put(out, b"end\n")
}

/// Writes a line for each library's finding, and then the line `end`.
fn write_findings<D: Disk, W: Write>(
    store: &Store<D>,
    findings: &[Finding],
    out: &mut W,
) -> Result<(), WriteFault>
    requires { length findings.now ≡ length store.now.entries }
    ensures { (libraries : List Library) → Lists D.facts store.now libraries → OnOk result
        (Appends (W.contents out.old) (W.contents out.new)
        (check_text libraries findings.now)) }
{
    let mut line = Line::new();
    put_check(store, findings, &mut line, out)?;
    line.send(out)
}

/// Returns whether `finding` is `Sound`: the file is a library with its entry's name.
fn is_sound(finding: Finding) -> bool
    ensures { result ≡ is_sound finding }
{
    matches!(&finding, Finding::Sound)
}

/// Returns whether each finding is `Sound`.
fn are_sound(findings: &[Finding]) -> bool
    ensures { result ≡ list_all is_sound findings.now }
{
    findings.iter().all(|finding| is_sound(*finding))
}

/// Returns `Done` if each finding is `Sound`, and otherwise `Refused`.
fn status_of_findings(findings: &[Finding]) -> Status
    ensures { result ≡ check_status findings.now }
{
    if are_sound(findings) {
        Status::Done
    } else {
        Status::Refused
    }
}

/// Writes the findings, or reports that the output failed.
fn tell_findings<D: Disk, O: Write, E: Write>(
    store: &Store<D>,
    findings: &[Finding],
    output: &mut O,
    errors: &mut E,
) -> Status
    requires { length findings.now ≡ length store.now.entries }
    ensures { (libraries : List Library) → Lists D.facts store.now libraries
        → TellsOnly (check_status findings.now) (check_text libraries findings.now)
        (record {
          before = O.contents output.old;
          after = O.contents output.new;
          errors_before = E.contents errors.old;
          errors_after = E.contents errors.new;
        }) result }
{
    match write_findings(store, findings, output) {
        Ok(()) => status_of_findings(findings),
        Err(_) => cannot_write(errors),
    }
}

/// Reads each library. Then writes a line for each library's finding, in the order of the
/// libraries, and the line `end`.
pub fn run_check<D: Disk, O: Write, E: Write>(
    contents: &mut Contents<D>,
    alloc: Global,
    output: &mut O,
    errors: &mut E,
) -> Status
    ensures read { IsRead D.facts contents.old contents.new }
    ensures ends { (s : State) → IsAt D.facts contents.old s
        → CheckEnds (D.facts contents.old.disk) (D.facts contents.new.disk) contents.old.entries s
        (record {
          before = O.contents output.old;
          after = O.contents output.new;
          errors_before = E.contents errors.old;
          errors_after = E.contents errors.new;
        }) result }

    // The clauses from here on hold on any disk, honest or not.
    ensures told { CheckTells (D.facts contents.old.disk) (D.facts contents.new.disk) (record {
      before = O.contents output.old;
      after = O.contents output.new;
      errors_before = E.contents errors.old;
      errors_after = E.contents errors.new;
    }) result }

    // The form makes at most one call of the disk for each sector of each library.
    ensures calls { AreCallsAtMost (sum_by file_sectors contents.old.entries)
        (D.facts contents.old.disk) (D.facts contents.new.disk) }
{
    match contents.check(alloc) {
        Ok(findings) => tell_findings(contents.store(), &findings, output, errors),
        Err(_) => say_refusal(alloc, StoreRefusal::OutOfMemory, errors),
    }
}
