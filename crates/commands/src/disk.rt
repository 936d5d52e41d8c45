// Opens or makes the disk of a command over a file, or returns the reason why this is impossible.

ghost use Rattle.std.specs.Prelude.{◌≡◌, false, OnOk, IfErr};
ghost use Rattle.store.specs.Opened.{Opened};
ghost use Rattle.commands.specs.Disk.{IsOpenRefusal, IsFormatRefusal, IsUpgradeRefusal};
ghost use Rattle.commands.specs.Opened.{SystemDisk, IsMade};
ghost use Rattle.commands.specs.Said.{base_text};
ghost use Rattle.commands.specs.inside.Ends.{IsNoRegistry, IsTurnedAway, IsSaid};

use crate::disk_answer::write_disk_answer;
use crate::making::run_format;
use crate::message::cannot_read;
use file_disk::{FileDisk, Made, NameFault, OpenFault, UnnamedFile};
use program_parts::Status;
use std::alloc::Global;
use std::fs::File;
use std::io::Write;
use std::rt::{Clock, Files};
use store::StoreRefusal;

/// The reason why there is no registry for a command.
#[derive(Clone, Copy)]
pub(crate) enum NoRegistry {
    /// The file can't be opened or made.
    CannotOpen,
    /// The disk was refused.
    Refused(StoreRefusal),
}

/// Returns the reason why a file isn't a disk. S6 (BadGeometry) means that the file's length isn't
/// a whole number of sectors, or isn't the requested number of sectors.
pub(crate) fn no_disk(fault: OpenFault) -> NoRegistry
    ensures open { IsNoRegistry IsOpenRefusal result }
    ensures format { IsNoRegistry IsFormatRefusal result }
    ensures upgrade { IsNoRegistry IsUpgradeRefusal result }
{
    match fault {
        OpenFault::CannotOpen => NoRegistry::CannotOpen,
        OpenFault::BadLength(_) => NoRegistry::Refused(StoreRefusal::BadGeometry),
        OpenFault::OutOfMemory => NoRegistry::Refused(StoreRefusal::OutOfMemory),
    }
}

/// Gives the file of a registry its final name, if the file is new.
fn name_file<R: Files<File = File>>(rt: &R, name: Option<UnnamedFile<'_>>) -> Result<(), NoRegistry>
    ensures refused { IfErr result (IsNoRegistry IsFormatRefusal) }
{
    match name.map_or(Ok(()), |name| name.publish(rt)) {
        Ok(()) => Ok(()),
        Err(NameFault::NotGiven) => Err(NoRegistry::CannotOpen),
        Err(NameFault::NotSynced) => Err(NoRegistry::Refused(StoreRefusal::Device)),
    }
}

/// Deletes the file of a registry, if the file is new.
fn take_away<R: Files<File = File>>(rt: &R, name: Option<UnnamedFile<'_>>) {
    if let Some(name) = name {
        name.take_away(rt);
    }
}

/// Makes an empty registry on a disk of `sectors` sectors, which is the file at `path`. If the file
/// doesn't exist, makes it under another name, and gives it its final name when the whole file is
/// on the medium.
pub(crate) fn make_registry<R: Files<File = File> + Clock>(
    rt: &R,
    alloc: Global,
    path: &str,
    sectors: u32,
) -> Result<(), NoRegistry>
    ensures ok { OnOk result ((disk : SystemDisk) × (registry : Opened SystemDisk)
        × IsMade sectors disk registry) }
    ensures refused { IfErr result (IsNoRegistry IsFormatRefusal) }
{
    let Made { disk, name } = match FileDisk::make(rt, alloc, path, sectors) {
        Ok(made) => made,
        Err(fault) => return Err(no_disk(fault)),
    };
    let (made, disk) = run_format(alloc, disk);
    drop(disk);
    match made {
        Ok(()) => name_file(rt, name),
        Err(refusal) => {
            take_away(rt, name);
            Err(NoRegistry::Refused(refusal))
        }
    }
}

/// Reports why there is no registry.
pub(crate) fn turn_away<O: Write, E: Write>(
    why: NoRegistry,
    path: &str,
    output: &mut O,
    errors: &mut E,
) -> Status
    ensures ends { IsTurnedAway (λ refusal. why ≡ NoRegistry.Refused refusal)
        (O.contents output.old) (O.contents output.new) result }
    ensures said { IsSaid base_text (O.contents output.old) (O.contents output.new)
        (E.contents errors.old) (E.contents errors.new) result }
{
    match why {
        NoRegistry::CannotOpen => cannot_read(errors, path),
        NoRegistry::Refused(refusal) => write_disk_answer(Err(refusal), output),
    }
}
