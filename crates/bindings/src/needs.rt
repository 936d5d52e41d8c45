// Writes the names that an object needs.

ghost use Rattle.std.specs.Prelude.{OnOk};
ghost use Rattle.std.specs.List.{flat_map};
ghost use Rattle.elf_dynamic.specs.Strings.{needed};
ghost use Rattle.text_output.specs.Sends.{Sends};
ghost use Rattle.bindings.specs.Bindings.{needs_line};

use crate::lines::{TextBuffer, put_name_line};
use elf_dynamic::Object;
use std::io::Write;
use text_output::WriteFault;

/// Writes a line for each name that an object needs. Makes one pass over the object's dynamic
/// section.
pub(crate) fn put_needs<W: Write>(
    out: &mut W,
    buffer: &mut TextBuffer,
    object: &Object<'_>,
) -> Result<(), WriteFault>
    ensures { OnOk result (Sends (W.contents out.old) buffer.old (W.contents out.new) buffer.new
        (flat_map needs_line (needed object.now))) }
{
    for name in object.needed_names() {
        put_name_line(out, buffer, b"needs ", name)?;
    }
    Ok(())
}
