// Runs a script over a registry on a disk.

ghost use Rattle.std.specs.Prelude.{◌≡◌, IfOk, IfErr};
ghost use Rattle.commands.specs.DiskScript.{FinishesOnDisk, StopsOnDisk};
ghost use Rattle.binders.specs.EventsRan.{EventStep};
ghost use Rattle.commands.specs.Script.{StopsWriting};

use crate::script::run_script;
use crate::summary::Summary;
use binders::Binders;
use scripts::ScriptFault;
use sector_disk::Disk;
use std::alloc::Global;
use std::io::{Read, Write};

/// Runs a script over a registry on a disk, in the same way as `run_script` does over any type that
/// takes events. The contract adds the effect on the disk: the commands of the answered lines form
/// a run. On an honest disk, a stop at any moment leaves the state after a prefix of the accepted
/// commands, even if the script ends early. The prefix contains every command that was acknowledged
/// before that moment.
pub fn run_script_on_disk<R: Read, W: Write, D: Disk>(
    alloc: Global,
    reader: &mut R,
    writer: &mut W,
    binders: &mut Binders<D>,
) -> Result<Summary, ScriptFault>
    // The whole script was read, and the commands of its lines form a run.
    ensures ok { IfOk result (FinishesOnDisk D.facts (record {
      unread = R.remaining reader.old;
      before = W.contents writer.old;
      after = W.contents writer.new;
    })
        binders.old binders.new) }

    // The script ended early. The commands of the answered lines form a run, and no other command
    // was applied.
    ensures err { IfErr result (StopsOnDisk D.facts (record {
      unread = R.remaining reader.old;
      before = W.contents writer.old;
      after = W.contents writer.new;
    })
        binders.old binders.new) }

    // If a write failed, this clause defines the text that the writer had before that write.
    ensures sent { IfErr result (λ fault. fault ≡ ScriptFault.Write
        → (held : W) × StopsWriting (EventStep D.facts) (record {
          unread = R.remaining reader.old;
          before = W.contents writer.old;
          after = W.contents writer.new;
        })
        binders.old binders.new (W.contents held)) }
{
    run_script(alloc, reader, writer, binders)
}
