// An update of a registry on given bytes, which plans all of its changes, or none.
ghost use Rattle.std.specs.Prelude.{◌≡◌, ◌<◌, IfOk, IfErr, MatchResult, map, false};
ghost use Rattle.byte_disk.specs.ByteDisk.{byte_facts};
ghost use Rattle.states.specs.State.{State};
ghost use Rattle.store.specs.Opened.{IsAt};
ghost use Rattle.requests.specs.Request.{request_of};
ghost use Rattle.requests.specs.declared.reply.Reply.{Reply};
ghost use Rattle.registry.specs.Updating.{DraftAnswers, is_refusal};
ghost use Rattle.byte_registry.specs.Asked.{IsUnopened, failures_of};
ghost use Rattle.byte_registry.specs.Updated.{IsUpdateAsked};
ghost use Rattle.byte_registry.specs.inside.Planning.{MakesUpdate, PlansAll};

use crate::asked::open_on;
use byte_disk::ByteDisk;
use registry::{Registry, Update};
use requests::{Command, Refusal, Reply};
use std::alloc::Global;
use store::StoreRefusal;

/// Returns the refusal as an error, if `reply` is a refusal.
fn refusal_in(reply: Reply) -> Result<(), Refusal>
    ensures { MatchResult result (λ _. is_refusal reply ≡ false)
        (λ refusal. reply ≡ Reply.Refused refusal) }
{
    match reply {
        Reply::Refused(refusal) => Err(refusal),
        _ => Ok(()),
    }
}

/// Plans a command after those that `update` already has, or returns the reason why the command is
/// refused.
fn plan_one(update: &mut Update<ByteDisk<'_>>, command: &Command<'_>) -> Result<(), Refusal>
    ensures ok { IfOk result (λ _. (answer : Reply)
        × DraftAnswers byte_facts update.old (request_of command.now) answer update.new
        × (is_refusal answer ≡ false)) }
    ensures err { IfErr result (λ refusal. DraftAnswers byte_facts update.old
        (request_of command.now) (Reply.Refused refusal) update.new) }
{
    let reply = update.apply(command);
    refusal_in(reply)
}

/// Plans `commands` one after the other, up to the first one that is refused. If a command is
/// refused, returns the number of commands before it, and the refusal.
fn plan_all(
    update: &mut Update<ByteDisk<'_>>,
    commands: &[Command<'_>],
) -> Result<(), (usize, Refusal)>
    ensures { PlansAll update.old update.new (map request_of commands.now) result }
{
    for (place, command) in commands.iter().enumerate() {
        if let Err(refusal) = plan_one(update, command) {
            return Err((place, refusal));
        }
    }
    Ok(())
}

/// Makes an update with `commands`. If a command is refused, returns the number of commands before
/// it and the refusal, and leaves the registry unchanged.
fn make_update<'a>(
    registry: Registry<ByteDisk<'a>>,
    commands: &[Command<'_>],
) -> (Result<(), (usize, Refusal)>, Registry<ByteDisk<'a>>)
    ensures { (s : State) → IsAt byte_facts registry.entry s
        → MakesUpdate registry.entry result.1 s (map request_of commands.now) result.0 }
{
    let mut update = match registry.update() {
        Ok(update) => update,
        Err((refusal, registry)) => return (Err((0, refusal)), registry),
    };
    match plan_all(&mut update, commands) {
        Ok(()) => {
            let (made, registry) = update.commit();
            match made {
                Ok(()) => (Ok(()), registry),
                Err(refusal) => (Err((commands.len(), refusal)), registry),
            }
        }
        Err(refused) => (Err(refused), update.give_up()),
    }
}

/// Opens the registry on the bytes `disk`, makes an update with `commands`, and returns the answer
/// and the disk after the update. If the opening is refused, returns the refusal and, if the bytes
/// are whole sectors, the disk. If the update is refused, the answer has the refusal and the number
/// of commands before the refused one. This number is 0 if memory for the draft is refused, and the
/// number of all commands if the commit fails. Reads no file, except those that a bind needs.
pub fn ask_update<'a>(
    alloc: Global,
    disk: &'a [u8],
    commands: &[Command<'_>],
) -> Result<(Result<(), (usize, Refusal)>, ByteDisk<'a>), (StoreRefusal, Option<ByteDisk<'a>>)>
    ensures ok { IfOk result (λ asked. (s : State) × IsUpdateAsked disk.now s
        (map request_of commands.now) asked.0 asked.1) }

    // The answer is S1 only if a call of the disk failed. On this disk, only a write or a sync can
    // fail, and only because memory was refused.
    ensures device { MatchResult result
        (λ asked. IfErr asked.0 (λ refused. refused.1 ≡ Refusal.Device
        → 0 < (byte_facts asked.1).failures))
        (λ refused. refused.0 ≡ StoreRefusal.Device → 0 < failures_of refused.1) }
    ensures err { IfErr result (λ refused. IsUnopened disk.now refused.0) }
{
    match open_on(alloc, disk) {
        Ok(registry) => {
            let (answer, registry) = make_update(registry, commands);
            Ok((answer, registry.into_disk()))
        }
        Err(refused) => Err(refused),
    }
}
