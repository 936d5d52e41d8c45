// Writes the image of a program.

ghost use Rattle.std.specs.Prelude.{◌≡◌, IfOk, IfErr};
ghost use Rattle.commands.specs.RunImage.{Shows};

use image::{BindRefusal, bind_alone};
use program_parts::{write_disk_refusal, write_refusal};
use scripts::ScriptFault;
use std::alloc::Global;
use std::io::Write;
use store::StoreRefusal;

/// The kind of text that was written.
#[derive(Clone, Copy, PartialEq, Eq)]
pub enum Shown {
    /// The image.
    Image,
    /// The reason why there is no image.
    Refused,
    /// The line for refused memory.
    NoMemory,
}

/// Binds a program without libraries at `base`, and writes the text of its image, or of the
/// refusal. After a fault, the writer's contents are unspecified.
pub fn run_image<W: Write>(
    alloc: Global,
    program: &[u8],
    base: u64,
    writer: &mut W,
) -> Result<Shown, ScriptFault>
    ensures ok { IfOk result
        (Shows program.now base (W.contents writer.old) (W.contents writer.new)) }
    ensures err { IfErr result (λ fault. fault ≡ ScriptFault.Write) }
{
    match bind_alone(alloc, program, base) {
        Ok(image) => match image.write_text(writer) {
            Ok(()) => Ok(Shown::Image),
            Err(_) => Err(ScriptFault::Write),
        },
        Err(BindRefusal::OutOfMemory) => {
            write_disk_refusal(writer, StoreRefusal::OutOfMemory)?;
            Ok(Shown::NoMemory)
        }
        Err(refusal) => {
            write_refusal(writer, &refusal)?;
            Ok(Shown::Refused)
        }
    }
}
