// Applies commands to the draft of an update.
use crate::apply::reply;
use crate::list::listing;
use crate::update::Update;
use requests::{Command, Refusal, Reply};
use sector_disk::Disk;

impl<D: Disk> Update<D> {
    ghost use Rattle.std.specs.Prelude.{◌≡◌, ◌↔◌, IsTrue};
    ghost use Rattle.states.specs.State.{State};
    ghost use Rattle.store.specs.Draft.{IsDraftedAt};
    ghost use Rattle.requests.specs.Request.{list, request_of};
    ghost use Rattle.registry.specs.Answered.{IsListAnswer};
    ghost use Rattle.registry.specs.Drafting.{AnsweredDraft, AppliesDraft, IsBoundBeside};

    /// Returns the reply to `List`: the draft's libraries and preloads.
    fn list(&self) -> Reply
        ensures applied { (s d : State) → IsDraftedAt D.facts self.now s d
            → AppliesDraft D.facts self.now self.now s d list result }

        // This clause holds on any disk, honest or not.
        ensures reopen { (result ≡ Reply.Refused Refusal.Reopen) ↔ IsTrue self.now.store.failed }
        ensures answers { IsListAnswer result }
        ensures device { result ≡ Reply.Refused Refusal.Device → ⊥ }
    {
        if self.draft.has_failed() {
            return Reply::Refused(Refusal::Reopen);
        }
        match listing(self.alloc, &self.draft) {
            Ok(listing) => Reply::Listing(listing),
            Err(_) => Reply::Refused(Refusal::OutOfMemory),
        }
    }

    /// Applies `command` to the draft. The answer is a step of the step table in the draft's state.
    /// A change is planned or refused. A listing and a bind use the draft as it is now. The current
    /// state doesn't change, and a refusal leaves the draft unchanged too.
    pub fn apply(&mut self, command: &Command<'_>) -> Reply
        ensures applied { (s d : State) → IsDraftedAt D.facts self.old s d
            → AppliesDraft D.facts self.old self.new s d (request_of command.now) result }
        ensures on_any_disk { AnsweredDraft D.facts self.old self.new
            (request_of command.now) result }

        // A bind makes at most as many calls as a bind over the draft's state needs, and writes
        // nothing.
        ensures bound { (s d : State) → IsDraftedAt D.facts self.old s d → IsBoundBeside
            D.facts self.old self.new d (request_of command.now) result }
    {
        match command {
            Command::Install(bytes) => reply(self.install(bytes)),
            Command::Replace(bytes) => reply(self.replace(bytes)),
            Command::Remove(name) => reply(self.remove(name)),
            Command::SetPreloads(names) => reply(self.set_preloads(names)),
            Command::Bind { program, base } => self.bind(program, *base),
            Command::List => self.list(),
        }
    }
}
