// Answers a command for the registry on given bytes.
ghost use Rattle.std.specs.Prelude.{◌≡◌, ◌<◌, IfOk, IfErr, MatchResult};
ghost use Rattle.byte_disk.specs.ByteDisk.{byte_facts};
ghost use Rattle.states.specs.State.{State};
ghost use Rattle.requests.specs.Request.{request_of};
ghost use Rattle.requests.specs.declared.refusal.Refusal.TheVariants.{Device};
ghost use Rattle.requests.specs.declared.reply.Reply.TheVariants.{Refused};
ghost use Rattle.byte_registry.specs.Asked.{IsDiskOf, IsBadLength, IsAsked, IsUnopened, failures_of};
ghost use Rattle.byte_registry.specs.Plans.{synced_plan};
ghost use Rattle.byte_registry.specs.inside.Opening.{IsOpenedOn};

use byte_disk::ByteDisk;
use registry::Registry;
use requests::{Command, Reply};
use std::alloc::Global;
use store::StoreRefusal;

/// Returns the disk with the bytes `disk`. Refuses with S6 (BadGeometry), and returns no disk, if
/// these bytes aren't whole sectors.
pub(crate) fn disk_of(
    alloc: Global,
    disk: &[u8],
) -> Result<ByteDisk<'_>, (StoreRefusal, Option<ByteDisk<'_>>)>
    ensures ok { IfOk result (IsDiskOf disk.now) }
    ensures err { IfErr result (λ refused. IsBadLength disk.now refused.0) }
{
    match ByteDisk::over(alloc, disk) {
        Some(disk) => Ok(disk),
        None => Err((StoreRefusal::BadGeometry, None)),
    }
}

/// Opens the registry on the bytes `disk`, and reads no file. If this is refused, returns the
/// refusal and, if the bytes are whole sectors, the disk.
pub(crate) fn open_on(
    alloc: Global,
    disk: &[u8],
) -> Result<Registry<ByteDisk<'_>>, (StoreRefusal, Option<ByteDisk<'_>>)>
    ensures ok { IfOk result (IsOpenedOn disk.now) }
    ensures device { IfErr result (λ refused. refused.0 ≡ StoreRefusal.Device
        → 0 < failures_of refused.1) }
    ensures err { IfErr result (λ refused. IsUnopened disk.now refused.0) }
{
    let disk = match disk_of(alloc, disk) {
        Ok(disk) => disk,
        Err(refused) => return Err(refused),
    };
    match Registry::open_untested(alloc, disk) {
        Ok(registry) => Ok(registry),
        Err((refusal, disk)) => Err((refusal, Some(disk))),
    }
}

/// Opens the registry on the bytes `disk`, applies a command, and returns the reply and the disk
/// after the command. If the opening is refused, returns the refusal and, if the bytes are whole
/// sectors, the disk. Reads no file, except those that a bind needs.
pub fn ask<'a>(
    alloc: Global,
    disk: &'a [u8],
    command: &Command<'_>,
) -> Result<(Reply, ByteDisk<'a>), (StoreRefusal, Option<ByteDisk<'a>>)>
    ensures ok { IfOk result (λ asked. (s : State)
        × IsAsked disk.now s (request_of command.now) asked.0 (synced_plan asked.1)) }

    // The answer is S1 only if a call of the disk failed. On this disk, only a write or a sync can
    // fail, and only because memory was refused.
    ensures device { MatchResult result
        (λ asked. asked.0 ≡ Refused Device → 0 < (byte_facts asked.1).failures)
        (λ refused. refused.0 ≡ StoreRefusal.Device → 0 < failures_of refused.1) }
    ensures err { IfErr result (λ refused. IsUnopened disk.now refused.0) }
{
    match open_on(alloc, disk) {
        Ok(registry) => {
            let mut registry = registry;
            let reply = registry.apply(command);
            Ok((reply, registry.into_disk()))
        }
        Err(refused) => Err(refused),
    }
}
