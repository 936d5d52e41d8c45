// Writes the numbers of the whole registry.

ghost use Rattle.std.specs.Prelude.{◌++◌, codes, length, OnOk};
ghost use Rattle.std.specs.Fmt.{decimal};
ghost use Rattle.std.specs.Io.KnownBytes.{Appends};
ghost use Rattle.states.specs.State.{State};
ghost use Rattle.store.specs.Opened.{IsAt};
ghost use Rattle.text_output.specs.Sends.{Sends};
ghost use Rattle.program_parts.specs.declared.status.Status.TheVariants.{Done};
ghost use Rattle.tool_commands.specs.AnyDisk.{InfoTells};
ghost use Rattle.tool_commands.specs.Ends.{InfoEnds};
ghost use Rattle.tool_commands.specs.Info.{disk_lines, count_lines, room_lines, info_text};
ghost use Rattle.tool_parts.specs.Streams.{TellsOnly};

use contents::{Contents, Info};
use program_parts::Status;
use sector_disk::Disk;
use std::io::Write;
use text_output::{LINE, OutputBuffer, WriteFault};
use tool_parts::cannot_write;

/// The buffer of a line that goes to a writer.
type Line = OutputBuffer<LINE>;

/// Appends `front`, `number` in decimal and `back` to the buffered text.
fn put_number<W: Write>(
    line: &mut Line,
    out: &mut W,
    front: &[u8],
    number: u64,
    back: &[u8],
) -> Result<(), WriteFault>
    ensures { OnOk result (Sends (W.contents out.old) line.old (W.contents out.new) line.new
        (front.now ++ decimal number ++ back.now)) }
{
    line.put(out, front)?;
    line.put_decimal(out, number)?;
    line.put(out, back)
}

/// Appends the lines about the disk and the number of the registry's changes to the buffered text.
fn put_disk<W: Write>(line: &mut Line, out: &mut W, info: &Info) -> Result<(), WriteFault>
    ensures { OnOk result (Sends (W.contents out.old) line.old (W.contents out.new) line.new
        (disk_lines info.now.sectors info.now.generation)) }
{
    line.put(out, b"version 2\n")?;
    put_number(line, out, b"sectors ", u64::from(info.sectors), b"\n")?;
    put_number(line, out, b"generation ", info.generation, b"\n")
}

/// Appends the lines about the installed libraries and the preloads, with their limits, to the
/// buffered text.
fn put_counts<W: Write>(line: &mut Line, out: &mut W, info: &Info) -> Result<(), WriteFault>
    ensures { OnOk result (Sends (W.contents out.old) line.old (W.contents out.new) line.new
        (count_lines info.now.libraries info.now.preloads)) }
{
    put_number(
        line,
        out,
        b"libraries ",
        info.libraries as u64,
        b" of 2048\n",
    )?;
    put_number(line, out, b"preloads ", info.preloads as u64, b" of 16\n")
}

/// Appends the lines about the unused sectors, with the largest file that can be installed, to the
/// buffered text.
fn put_room<W: Write>(line: &mut Line, out: &mut W, info: &Info) -> Result<(), WriteFault>
    ensures { OnOk result (Sends (W.contents out.old) line.old (W.contents out.new) line.new
        (room_lines info.now.unused.sectors info.now.unused.free info.now.unused.runs
        info.now.unused.largest)) }
{
    put_number(line, out, b"unused ", info.unused.sectors as u64, b"\n")?;
    put_number(line, out, b"free ", info.unused.free as u64, b"\n")?;
    put_number(line, out, b"runs ", info.unused.runs as u64, b"\n")?;
    put_number(
        line,
        out,
        b"largest ",
        u64::from(info.unused.largest),
        b"\nend\n",
    )
}

/// Appends all lines of the form `info` to the buffered text.
fn put_info<W: Write>(line: &mut Line, out: &mut W, info: &Info) -> Result<(), WriteFault>
    ensures { OnOk result (Sends (W.contents out.old) line.old (W.contents out.new) line.new
        (info_text info.now.sectors info.now.generation info.now.libraries info.now.preloads
        info.now.unused.sectors info.now.unused.free info.now.unused.runs
        info.now.unused.largest)) }
{
    put_disk(line, out, info)?;
    put_counts(line, out, info)?;
    put_room(line, out, info)
}

/// Writes all lines of the form `info`, with one write.
fn write_info<W: Write>(out: &mut W, info: &Info) -> Result<(), WriteFault>
    ensures { OnOk result (Appends (W.contents out.old) (W.contents out.new)
        (info_text info.now.sectors info.now.generation info.now.libraries info.now.preloads
        info.now.unused.sectors info.now.unused.free info.now.unused.runs
        info.now.unused.largest)) }
{
    let mut line = Line::new();
    put_info(&mut line, out, info)?;
    line.send(out)
}

/// Writes all lines of the form `info`, or reports that the output failed.
fn tell_info<O: Write, E: Write>(info: &Info, output: &mut O, errors: &mut E) -> Status
    ensures { TellsOnly Done (info_text info.now.sectors info.now.generation info.now.libraries
        info.now.preloads info.now.unused.sectors info.now.unused.free info.now.unused.runs
        info.now.unused.largest)
        (record {
          before = O.contents output.old;
          after = O.contents output.new;
          errors_before = E.contents errors.old;
          errors_after = E.contents errors.new;
        }) result }
{
    match write_info(output, info) {
        Ok(()) => Status::Done,
        Err(_) => cannot_write(errors),
    }
}

/// Writes the numbers of the whole registry in one write. Allocates nothing, and makes no call of
/// the disk.
pub fn run_info<D: Disk, O: Write, E: Write>(
    contents: &Contents<D>,
    output: &mut O,
    errors: &mut E,
) -> Status
    ensures ends { (s : State) → IsAt D.facts contents.now s
        → InfoEnds D.facts contents.now s (record {
          before = O.contents output.old;
          after = O.contents output.new;
          errors_before = E.contents errors.old;
          errors_after = E.contents errors.new;
        }) result }

    // The clauses from here on hold on any disk, honest or not.
    ensures told { InfoTells (record {
      before = O.contents output.old;
      after = O.contents output.new;
      errors_before = E.contents errors.old;
      errors_after = E.contents errors.new;
    }) result }
{
    tell_info(&contents.info(), output, errors)
}
