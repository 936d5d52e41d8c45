// The lines that several forms write to standard error.

ghost use Rattle.std.specs.Prelude.{◌≡◌, ◌++◌, OnOk};
ghost use Rattle.program_parts.specs.Said.{AppendsFront};
ghost use Rattle.program_parts.specs.Status.{disk_status};
ghost use Rattle.program_parts.specs.declared.status.Status.TheVariants.{Failed};
ghost use Rattle.tool_parts.specs.Said.{cannot_write_line, refusal_line};

use program_parts::{Status, put_disk_refusal, say};
use std::alloc::Global;
use std::io::Write;
use store::StoreRefusal;
use text_output::{LINE, OutputBuffer, WriteFault};

/// Appends to `line` the line that reports why a disk is refused.
fn spell_refusal(line: &mut Vec<u8>, refusal: StoreRefusal) -> Result<(), WriteFault>
    ensures { OnOk result (line.new.items ≡ line.old.items ++ refusal_line refusal) }
{
    let mut text = OutputBuffer::<LINE>::new();
    text.put(line, b"rlibreg-tool: ")?;
    put_disk_refusal(&mut text, line, refusal)?;
    text.send(line)
}

/// Reports why a disk is refused, if there is memory for the line. Returns the status.
pub fn say_refusal<E: Write>(alloc: Global, refusal: StoreRefusal, errors: &mut E) -> Status
    ensures status { result ≡ disk_status refusal }
    ensures said { AppendsFront (E.contents errors.old) (E.contents errors.new)
        (refusal_line refusal) }
{
    let mut line = Vec::new(alloc);
    if spell_refusal(&mut line, refusal).is_ok() {
        say(errors, &line);
    }
    Status::of_disk(refusal)
}

/// Reports that the output failed.
pub fn cannot_write<E: Write>(errors: &mut E) -> Status
    ensures status { result ≡ Failed }
    ensures said { AppendsFront (E.contents errors.old) (E.contents errors.new)
        cannot_write_line }
{
    say(errors, b"rlibreg-tool: cannot write\n");
    Status::Failed
}
