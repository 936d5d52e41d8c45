// Writes the script that makes the same registry again.

ghost use Rattle.std.specs.Prelude.{◌≡◌, ◌++◌, ◌<◌, ℕ, List, IfOk, IfSome, OnOk, length};
ghost use Rattle.std.specs.Prelude.{slice_index_or};
ghost use Rattle.std.specs.List.{flat_map};
ghost use Rattle.std.specs.Io.KnownBytes.{Appends};
ghost use Rattle.roots.specs.Root.{listed_preloads};
ghost use Rattle.states.specs.State.{Library, State};
ghost use Rattle.store.specs.IsRead.{IsRead};
ghost use Rattle.store.specs.Opened.{IsAt};
ghost use Rattle.store.specs.Stands.{names_at, no_library};
ghost use Rattle.program_parts.specs.Said.{AppendsFront};
ghost use Rattle.text_output.specs.Sends.{Sends};
ghost use Rattle.tool_commands.specs.AnyDisk.{DumpTells};
ghost use Rattle.tool_commands.specs.Check.{finding_line};
ghost use Rattle.tool_commands.specs.Dump.{behind_space, commit_text, cut_status, install_line};
ghost use Rattle.tool_commands.specs.Dump.{install_text, preload_text};
ghost use Rattle.tool_commands.specs.Ends.{DumpEnds};
ghost use Rattle.text_output.specs.Pieces.{EndsWithinLine};
ghost use Rattle.tool_parts.specs.Said.{said_line};
ghost use Rattle.tool_commands.specs.inside.Lack.{IsGone, IsLacking, SaysCut, dump_status};
ghost use Rattle.tool_commands.specs.inside.Lack.{end_text, lack_line, lack_status, libraries_text};
ghost use Rattle.tool_commands.specs.inside.Listed.{Lists};

use crate::finding::{Line, put_finding};
use crate::form::Purpose;
use crate::hexadecimal::put_hex;
use crate::sound::{Lack, sound_file};
use contents::{Contents, Finding};
use program_parts::{Status, say};
use sector_disk::Disk;
use std::alloc::Global;
use std::io::Write;
use store::{Store, StoreRefusal};
use text_output::{PieceBuffer, WriteFault};
use tool_parts::{cannot_write, say_refusal};

/// The library before which a script was cut, and the reason.
#[derive(Clone, Copy, PartialEq, Eq)]
struct Cut {
    position: usize,
    lack: Lack,
}

/// Appends the line that installs a file to the buffered text.
fn put_install<W: Write>(
    script: &mut PieceBuffer,
    out: &mut W,
    file: &[u8],
) -> Result<(), WriteFault>
    ensures { OnOk result
        (Sends (W.contents out.old) script.old (W.contents out.new) script.new
        (install_line file.now)) }
{
    script.put(out, b"install ")?;
    put_hex(script, out, file)?;
    script.end_line();
    Ok(())
}

/// Appends the lines that install the libraries to the buffered text, in the order of the
/// libraries. Has one library in memory at a time. Stops at the first library whose file
/// `sound_file` refuses, and returns this cut.
fn put_libraries<D: Disk, W: Write>(
    contents: &mut Contents<D>,
    alloc: Global,
    script: &mut PieceBuffer,
    out: &mut W,
) -> Result<Option<Cut>, WriteFault>
    ensures read { IsRead D.facts contents.old contents.new }
    ensures inside { IfOk result (λ cut. IfSome cut (λ c.
        c.position < length contents.new.entries)) }
    ensures ok { (s : State) → IsAt D.facts contents.old s → IfOk result (λ cut.
        IsGone s cut × Sends (W.contents out.old) script.old (W.contents out.new) script.new
        (libraries_text s cut)) }
    ensures told { IfOk result (λ cut. (libraries : List Library)
        × IsLacking (D.facts contents.old.disk) (D.facts contents.new.disk) cut
        × Sends (W.contents out.old) script.old (W.contents out.new) script.new
        (flat_map install_text libraries)) }
{
    for position in 0..contents.store().count() {
        match sound_file(contents, alloc, position) {
            Ok(file) => put_install(script, out, &file)?,
            Err(lack) => return Ok(Some(Cut { position, lack })),
        }
    }
    Ok(None)
}

/// Appends the names of the preloads, with a space before each name, to the buffered text.
fn put_preload_names<D: Disk, W: Write>(
    store: &Store<D>,
    script: &mut PieceBuffer,
    out: &mut W,
) -> Result<(), WriteFault>
    ensures ok { (libraries : List Library) → Lists D.facts store.now libraries → OnOk result
        (Sends (W.contents out.old) script.old (W.contents out.new) script.new
        (flat_map behind_space (names_at libraries (listed_preloads store.now.root)))) }
    ensures within { EndsWithinLine script.old.waiting
        → OnOk result (EndsWithinLine script.new.waiting) }
{
    let positions = store.preloads();
    for position in positions {
        script.put(out, b" ")?;
        script.put(out, store.name(usize::from(*position)))?;
    }
    Ok(())
}

/// Appends the line that sets the preloads to the buffered text, if there are preloads.
fn put_preloads<D: Disk, W: Write>(
    store: &Store<D>,
    script: &mut PieceBuffer,
    out: &mut W,
) -> Result<(), WriteFault>
    ensures { (libraries : List Library) → Lists D.facts store.now libraries → OnOk result
        (Sends (W.contents out.old) script.old (W.contents out.new) script.new
        (preload_text (names_at libraries (listed_preloads store.now.root)))) }
{
    if store.preloads().is_empty() {
        return Ok(());
    }
    script.put(out, b"preload")?;
    put_preload_names(store, script, out)?;
    script.end_line();
    Ok(())
}

/// Appends the line `commit` to the buffered text, if the script is for an update.
fn put_commit<W: Write>(
    purpose: Purpose,
    script: &mut PieceBuffer,
    out: &mut W,
) -> Result<(), WriteFault>
    ensures { OnOk result (Sends (W.contents out.old) script.old (W.contents out.new) script.new
        (commit_text purpose)) }
{
    match purpose {
        Purpose::Script => Ok(()),
        Purpose::Update => {
            script.put(out, b"commit")?;
            script.end_line();
            Ok(())
        }
    }
}

/// Appends the end of the script, after the lines for the libraries, to the buffered text. If the
/// script is cut, this is `cut` without a newline. Otherwise it is the line for the preloads and,
/// for an update, `commit`.
fn put_end<D: Disk, W: Write>(
    store: &Store<D>,
    purpose: Purpose,
    cut: &Option<Cut>,
    script: &mut PieceBuffer,
    out: &mut W,
) -> Result<(), WriteFault>
    ensures { (libraries : List Library) → Lists D.facts store.now libraries → OnOk result
        (Sends (W.contents out.old) script.old (W.contents out.new) script.new
        (end_text purpose (names_at libraries (listed_preloads store.now.root)) cut.now)) }
{
    match cut {
        Some(_) => script.put(out, b"cut"),
        None => {
            put_preloads(store, script, out)?;
            put_commit(purpose, script, out)
        }
    }
}

/// Writes the script for `purpose`. If the script is cut, returns the cut.
fn write_script<D: Disk, W: Write>(
    contents: &mut Contents<D>,
    alloc: Global,
    purpose: Purpose,
    out: &mut W,
) -> Result<Option<Cut>, WriteFault>
    ensures read { IsRead D.facts contents.old contents.new }
    ensures inside { IfOk result (λ cut. IfSome cut (λ c.
        c.position < length contents.new.entries)) }
    ensures ok { (s : State) → IsAt D.facts contents.old s → IfOk result (λ cut.
        IsGone s cut × Appends (W.contents out.old) (W.contents out.new)
        (libraries_text s cut ++ end_text purpose s.preloads cut)) }
    ensures told { IfOk result (λ cut. (libraries : List Library) × (preloads : List (List ℕ))
        × IsLacking (D.facts contents.old.disk) (D.facts contents.new.disk) cut
        × Appends (W.contents out.old) (W.contents out.new)
        (flat_map install_text libraries ++ end_text purpose preloads cut)) }
{
    let mut script = PieceBuffer::new();
    let cut = put_libraries(contents, alloc, &mut script, out)?;
    put_end(contents.store(), purpose, &cut, &mut script, out)?;
    script.finish(out)?;
    Ok(cut)
}

/// Appends to `spelt` the line that reports `finding` for a library with the name `name` and
/// `length` bytes.
fn spell_finding(
    finding: Finding,
    name: &[u8],
    length: u32,
    spelt: &mut Vec<u8>,
) -> Result<(), WriteFault>
    ensures { OnOk result (spelt.new.items
        ≡ spelt.old.items ++ said_line (finding_line name.now length finding)) }
{
    let mut line = Line::new();
    line.put(spelt, b"rlibreg-tool: ")?;
    put_finding(&mut line, spelt, finding, name, length)?;
    line.send(spelt)
}

/// Reports `finding` for the library named `name`, if there is memory for the line. Returns the
/// status.
fn say_finding<E: Write>(
    alloc: Global,
    finding: Finding,
    name: &[u8],
    length: u32,
    errors: &mut E,
) -> Status
    ensures status { result ≡ cut_status finding }
    ensures said { AppendsFront (E.contents errors.old) (E.contents errors.new)
        (said_line (finding_line name.now length finding)) }
{
    let mut spelt = Vec::new(alloc);
    if spell_finding(finding, name, length, &mut spelt).is_ok() {
        say(errors, &spelt);
    }
    finding_status(finding)
}

/// Returns the status for a script that is cut at a library with this finding.
fn finding_status(finding: Finding) -> Status
    ensures { result ≡ cut_status finding }
{
    match finding {
        Finding::Sound => Status::Done,
        Finding::Refused(_) | Finding::OtherName => Status::Refused,
        Finding::Unreadable => Status::Failed,
    }
}

/// Reports why a script was cut, and returns the status.
fn say_cut<D: Disk, E: Write>(store: &Store<D>, alloc: Global, cut: Cut, errors: &mut E) -> Status
    requires { cut.position < length store.now.entries }
    ensures status { result ≡ lack_status cut.lack }
    ensures said { (libraries : List Library) → Lists D.facts store.now libraries
        → AppendsFront (E.contents errors.old) (E.contents errors.new)
        (lack_line (slice_index_or libraries cut.position no_library) cut.lack) }
{
    let position = cut.position;
    match cut.lack {
        Lack::OutOfMemory => say_refusal(alloc, StoreRefusal::OutOfMemory, errors),
        Lack::Found(finding) => say_finding(
            alloc,
            finding,
            store.name(position),
            store.length(position),
            errors,
        ),
    }
}

/// Reports why the script was cut, if it was cut. Returns the status.
fn end_dump<D: Disk, E: Write>(
    store: &Store<D>,
    alloc: Global,
    cut: Option<Cut>,
    errors: &mut E,
) -> Status
    requires { IfSome cut (λ c. c.position < length store.now.entries) }
    ensures status { result ≡ dump_status cut }
    ensures said { (libraries : List Library) → Lists D.facts store.now libraries
        → SaysCut libraries cut (E.contents errors.old) (E.contents errors.new) }
{
    match cut {
        Some(cut) => say_cut(store, alloc, cut, errors),
        None => Status::Done,
    }
}

/// Writes the script that makes the same registry again: an `install` line for each library, in the
/// order of the libraries; a `preload` line if there are preloads; and for an update the line
/// `commit`. Has one library in memory at a time, and reads each sector of a library once. If a
/// file can't be read, or isn't a library with its entry's name, or memory is refused, the script
/// ends with `cut`, without a newline.
pub fn run_dump<D: Disk, O: Write, E: Write>(
    contents: &mut Contents<D>,
    alloc: Global,
    purpose: Purpose,
    output: &mut O,
    errors: &mut E,
) -> Status
    ensures read { IsRead D.facts contents.old contents.new }
    ensures ends { (s : State) → IsAt D.facts contents.old s
        → DumpEnds (D.facts contents.old.disk) (D.facts contents.new.disk) purpose s (record {
          before = O.contents output.old;
          after = O.contents output.new;
          errors_before = E.contents errors.old;
          errors_after = E.contents errors.new;
        }) result }

    // The clauses from here on hold on any disk, honest or not.
    ensures told { DumpTells (D.facts contents.old.disk) (D.facts contents.new.disk) purpose
        (record {
          before = O.contents output.old;
          after = O.contents output.new;
          errors_before = E.contents errors.old;
          errors_after = E.contents errors.new;
        }) result }
{
    match write_script(contents, alloc, purpose, output) {
        Ok(cut) => end_dump(contents.store(), alloc, cut, errors),
        Err(_) => cannot_write(errors),
    }
}
