// Appends or writes the text of a reply.

ghost use Rattle.std.specs.Prelude.{◌≡◌, ◌++◌, codes, true, OnOk, OnErr};
ghost use Rattle.std.specs.List.{flat_map};
ghost use Rattle.std.specs.Io.KnownBytes.{Appends};
ghost use Rattle.text_output.specs.Sends.{Sends};
ghost use Rattle.text_output.specs.Name.{name_text};
ghost use Rattle.std.specs.Fmt.{decimal};
ghost use Rattle.program_parts.specs.Reply.{command_refusal_text, library_text, preload_text};
ghost use Rattle.program_parts.specs.Reply.{listing_text, reply_text};
ghost use Rattle.program_parts.specs.inside.Short.{short_text};

use crate::bind_refusal::{put_file_line, put_refusal};
use crate::refusal::{Line, put_disk_refusal};
use names::Name;
use requests::{Listing, Refusal, Reply};
use std::io::Write;
use store::StoreRefusal;
use text_output::WriteFault;

/// Appends the line of a command's refusal.
fn put_command_refusal<W: Write>(
    line: &mut Line,
    out: &mut W,
    refusal: &Refusal,
) -> Result<(), WriteFault>
    ensures ok { OnOk result (Sends (W.contents out.old) line.old (W.contents out.new) line.new
        (command_refusal_text refusal.now)) }
    ensures err { OnErr result (line.new.failed ≡ true) }
{
    match refusal {
        Refusal::Object(refusal) => put_file_line(line, out, b"refused C1 ", *refusal),
        Refusal::AlreadyInstalled => line.put(out, b"refused C2 AlreadyInstalled\n"),
        Refusal::NotInstalled => line.put(out, b"refused C3 NotInstalled\n"),
        Refusal::InPreloads => line.put(out, b"refused C4 InPreloads\n"),
        Refusal::RepeatedPreload => line.put(out, b"refused C5 RepeatedPreload\n"),
        Refusal::TooManyPreloads => line.put(out, b"refused C6 TooManyPreloads\n"),
        Refusal::NoSlot => line.put(out, b"refused C7 NoSlot\n"),
        Refusal::NoSuchBinder => line.put(out, b"refused C8 NoSuchBinder\n"),
        Refusal::Bind(refusal) => put_refusal(line, out, refusal),
        Refusal::Device => put_disk_refusal(line, out, StoreRefusal::Device),
        Refusal::Reopen => put_disk_refusal(line, out, StoreRefusal::Reopen),
        Refusal::Damaged => put_disk_refusal(line, out, StoreRefusal::Damaged),
        Refusal::Full => put_disk_refusal(line, out, StoreRefusal::Full),
        Refusal::Fragmented => put_disk_refusal(line, out, StoreRefusal::Fragmented),
        Refusal::TooMany => put_disk_refusal(line, out, StoreRefusal::TooMany),
        Refusal::GenerationEnd => put_disk_refusal(line, out, StoreRefusal::GenerationEnd),
        Refusal::OutOfMemory => put_disk_refusal(line, out, StoreRefusal::OutOfMemory),
    }
}

/// Appends the line for a library.
fn put_library<W: Write>(
    line: &mut Line,
    out: &mut W,
    name: &Name,
    length: u32,
) -> Result<(), WriteFault>
    ensures ok { OnOk result (Sends (W.contents out.old) line.old (W.contents out.new) line.new
        (codes "library " ++ name_text name.now ++ codes " " ++ decimal length ++ codes "\n")) }
    ensures err { OnErr result (line.new.failed ≡ true) }
{
    line.put(out, b"library ")?;
    line.put_name(out, name.as_bytes())?;
    line.put(out, b" ")?;
    line.put_decimal(out, u64::from(length))?;
    line.put(out, b"\n")?;
    Ok(())
}

/// Appends the line for a preload.
fn put_preload<W: Write>(line: &mut Line, out: &mut W, name: &Name) -> Result<(), WriteFault>
    ensures ok { OnOk result (Sends (W.contents out.old) line.old (W.contents out.new) line.new
        (preload_text name.now)) }
    ensures err { OnErr result (line.new.failed ≡ true) }
{
    line.put(out, b"preload ")?;
    line.put_name(out, name.as_bytes())?;
    line.put(out, b"\n")?;
    Ok(())
}

/// Appends the lines for libraries.
fn put_libraries<W: Write>(
    line: &mut Line,
    out: &mut W,
    libraries: &[(Name, u32)],
) -> Result<(), WriteFault>
    ensures ok { OnOk result (Sends (W.contents out.old) line.old (W.contents out.new) line.new
        (flat_map library_text libraries.now)) }
    ensures err { OnErr result (line.new.failed ≡ true) }
{
    for library in libraries {
        put_library(line, out, &library.0, library.1)?;
    }
    Ok(())
}

/// Appends the lines for preloads.
fn put_preloads<W: Write>(line: &mut Line, out: &mut W, preloads: &[Name]) -> Result<(), WriteFault>
    ensures ok { OnOk result (Sends (W.contents out.old) line.old (W.contents out.new) line.new
        (flat_map preload_text preloads.now)) }
    ensures err { OnErr result (line.new.failed ≡ true) }
{
    for preload in preloads {
        put_preload(line, out, preload)?;
    }
    Ok(())
}

/// Appends the lines for the libraries and the preloads, and the line `end`.
fn put_listing<W: Write>(line: &mut Line, out: &mut W, listing: &Listing) -> Result<(), WriteFault>
    ensures ok { OnOk result (Sends (W.contents out.old) line.old (W.contents out.new) line.new
        (listing_text listing.now)) }
    ensures err { OnErr result (line.new.failed ≡ true) }
{
    put_libraries(line, out, &listing.libraries)?;
    put_preloads(line, out, &listing.preloads)?;
    line.put(out, b"end\n")?;
    Ok(())
}

/// Appends the text of a reply, except for an image: `put_reply` writes an image through a buffer
/// of its own.
fn put_short_reply<W: Write>(line: &mut Line, out: &mut W, reply: &Reply) -> Result<(), WriteFault>
    ensures ok { OnOk result (Sends (W.contents out.old) line.old (W.contents out.new) line.new
        (short_text reply.now)) }
    ensures err { OnErr result (line.new.failed ≡ true) }
{
    match reply {
        Reply::Done => line.put(out, b"ok\n"),
        Reply::Listing(listing) => put_listing(line, out, listing),
        Reply::Bound(_) => Ok(()),
        Reply::Refused(refusal) => put_command_refusal(line, out, refusal),
    }
}

/// Appends the text of a reply to the buffered text. Writes an image immediately, after the
/// buffered text. Allocates no memory.
pub fn put_reply<W: Write>(line: &mut Line, out: &mut W, reply: &Reply) -> Result<(), WriteFault>
    ensures { OnOk result (Sends (W.contents out.old) line.old (W.contents out.new) line.new
        (reply_text reply.now)) }
{
    if let Reply::Bound(image) = reply {
        line.send(out)?;
        return image.write_text(out);
    }
    put_short_reply(line, out, reply)
}

/// Writes the text of a reply. Makes one write, except for an image, and for a listing that is
/// longer than the buffer of a line. Allocates no memory.
pub fn write_reply<W: Write>(out: &mut W, reply: &Reply) -> Result<(), WriteFault>
    ensures { OnOk result
        (Appends (W.contents out.old) (W.contents out.new) (reply_text reply.now)) }
{
    let mut line = Line::new();
    put_reply(&mut line, out, reply)?;
    line.send(out)
}
