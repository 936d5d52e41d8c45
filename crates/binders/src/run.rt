// Carries out events one after the other.
use crate::binders::Binders;
use crate::event::{Event, EventReply};
use registry::Step;
use requests::Reply;
use sector_disk::Disk;
use std::alloc::AllocError;

impl<D: Disk> Binders<D> {
    ghost use Rattle.std.specs.Prelude.{◌≡◌, map, IfOk, OnErr};
    ghost use Rattle.binders.specs.Events.{Happens, happening_of};
    ghost use Rattle.binders.specs.EventsRan.{EventStep, EventsRan};

    /// Carries out `event`, and returns its reply.
    pub fn happen(&mut self, event: &Event<'_>) -> EventReply
        ensures { EventStep D.facts self.old (happening_of event.now) result self.new }
    {
        self.holds_are_sound();
        let reply = self.reply_to(event);
        self.holds_are_sound();
        reply
    }

    // Carries out an event by the call for its kind, and returns the reply.
    fn reply_to(&mut self, event: &Event<'_>) -> EventReply
        ensures { Happens D.facts self.old self.new (happening_of event.now) result }
    {
        match event {
            Event::Apply(command) => EventReply::Replied(self.apply(command)),
            Event::Begin { program, base } => match self.begin(program, *base) {
                Ok(slot) => EventReply::Slot(slot),
                Err(refusal) => EventReply::Replied(Reply::Refused(refusal)),
            },
            Event::Advance(slot) => match self.advance(*slot) {
                Ok(Step::Going) => EventReply::Going,
                Ok(Step::Final(answer)) => EventReply::Replied(answer),
                Err(refusal) => EventReply::Replied(Reply::Refused(refusal)),
            },
            Event::Cancel(slot) => EventReply::Replied(self.cancel(*slot)),
        }
    }

    /// Carries out `events` one after the other, and returns one reply for each event. If memory
    /// for the replies is refused, carries out no event.
    pub fn run_events(&mut self, events: &[Event<'_>]) -> Result<Vec<EventReply>, AllocError>
        // Each event has its effect on the registry after the previous event. A stop at any moment
        // leaves the state after accepted commands, which include every command that was
        // acknowledged before that moment.
        ensures ok { IfOk result (λ replies. EventsRan D.facts self.old self.new
            (map happening_of events.now) replies.items) }
        ensures err { OnErr result (self.new ≡ self.old) }
    {
        let mut replies = Vec::with_capacity(self.alloc, events.len())?;
        for event in events {
            let reply = self.happen(event);
            replies.push(reply).unwrap();
        }
        Ok(replies)
    }
}
