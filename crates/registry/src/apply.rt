// Applies commands to a registry on a disk.
ghost use Rattle.std.specs.Prelude.{◌≡◌};
ghost use Rattle.requests.specs.Step.{answer_of};

use crate::registry::Registry;
use requests::{Command, Refusal, Reply};
use sector_disk::Disk;
use std::alloc::AllocError;

/// Returns the reply for the result of a change.
pub(crate) fn reply(change: Result<(), Refusal>) -> Reply
    ensures { result ≡ answer_of change }
{
    match change {
        Ok(()) => Reply::Done,
        Err(refusal) => Reply::Refused(refusal),
    }
}

impl<D: Disk> Registry<D> {
    ghost use Rattle.std.specs.Prelude.{◌≡◌, map, IfOk, OnErr};
    ghost use Rattle.sector_disk.specs.Disk.{AreCallsExactly};
    ghost use Rattle.requests.specs.Request.{request_of};
    ghost use Rattle.states.specs.State.{State};
    ghost use Rattle.store.specs.Opened as stored;
    ghost use Rattle.registry.specs.Answered.{Answered, AreAnswered};
    ghost use Rattle.registry.specs.Applied.{Applies};
    ghost use Rattle.registry.specs.Calls.{IfAccepted, calls_of};
    ghost use Rattle.registry.specs.Opened.{IsAt};
    ghost use Rattle.registry.specs.Ran.{RunsOver};
    ghost use Rattle.registry.specs.Untested.{AppliesUntested};
    ghost use Rattle.store.specs.Holds.{AreHolds};

    // Carries out a command, and returns its reply.
    fn reply_to(&mut self, command: &Command<'_>) -> Reply
        ensures untested { (s : State) → stored.IsAt D.facts self.old s
            → AppliesUntested D.facts self.old self.new s (request_of command.now) result }
        ensures all_calls { (s : State) → stored.IsAt D.facts self.old s → IfAccepted result
            (AreCallsExactly (calls_of s (request_of command.now))
            (D.facts self.old.disk) (D.facts self.new.disk)) }

        // `holds_are_sound` states for the proof that each held byte string has one row.
        ensures on_any_disk { AreHolds self.old → AreHolds self.new
            → Answered D.facts self.old self.new (request_of command.now) result }
    {
        match command {
            Command::Install(bytes) => reply(self.install(bytes)),
            Command::Replace(bytes) => reply(self.replace(bytes)),
            Command::Remove(name) => reply(self.remove(name)),
            Command::SetPreloads(names) => reply(self.set_preloads(names)),
            Command::Bind { program, base } => self.bind(program, *base),
            Command::List => self.list(),
        }
    }

    /// Applies `command`. On an honest disk, the answer is a step of the step table, and a refusal
    /// is that of the first test that refuses. A removal and the setting of preloads allocate no
    /// memory. A listing makes no call of the disk. A bind reads the files of the program's load
    /// order.
    pub fn apply(&mut self, command: &Command<'_>) -> Reply
        // The answer is a step of the step table. A stop at any moment leaves the state before the
        // command or the state after it, even if a call failed.
        ensures applied { (s : State) → IsAt D.facts self.old s
            → Applies D.facts self.old self.new s (request_of command.now) result }

        // This clause holds even if the files aren't libraries. A change reads no file, and a bind
        // reads only the files that it needs.
        ensures untested { (s : State) → stored.IsAt D.facts self.old s
            → AppliesUntested D.facts self.old self.new s (request_of command.now) result }
        ensures all_calls { (s : State) → stored.IsAt D.facts self.old s → IfAccepted result
            (AreCallsExactly (calls_of s (request_of command.now))
            (D.facts self.old.disk) (D.facts self.new.disk)) }

        ensures on_any_disk { Answered D.facts self.old self.new (request_of command.now) result }
    {
        self.holds_are_sound();
        let reply = self.reply_to(command);
        self.holds_are_sound();
        reply
    }

    /// Applies `commands` one after the other, and returns one reply for each command. If memory
    /// for the replies is refused, applies no command.
    pub fn run(&mut self, commands: &[Command<'_>]) -> Result<Vec<Reply>, AllocError>
        // Each command is applied to the registry as the previous command left it. A stop at any
        // moment leaves the state after a prefix of the accepted commands. This prefix contains
        // every command that was acknowledged before that moment. After the last command, the
        // registry is at the state after all accepted commands.
        ensures ok { IfOk result (λ replies. (s : State) → IsAt D.facts self.old s → RunsOver
            D.facts self.old self.new s (map request_of commands.now) replies.items) }
        ensures err { OnErr result (self.new ≡ self.old) }

        // On any disk, each command has one answer.
        ensures on_any_disk { IfOk result (λ replies. AreAnswered D.facts self.old self.new
            (map request_of commands.now) replies.items) }
    {
        let mut replies = Vec::with_capacity(self.alloc, commands.len())?;
        for command in commands {
            let reply = self.apply(command);
            replies.push(reply).unwrap();
        }
        Ok(replies)
    }
}
