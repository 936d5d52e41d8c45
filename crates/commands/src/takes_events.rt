// The trait of the types over which a script can run.

ghost use Rattle.binders.specs.Events.{Happening, happening_of};
ghost use Rattle.binders.specs.declared.event.EventReply.{EventReply};

use crate::status::{event_status, greatest};
use crate::watched::Watched;
use binders::{Binders, Event, EventReply};
use sector_disk::Disk;

/// A type that carries out events: a registry on a disk with its binders, or any other type that
/// defines its own `step`.
pub trait TakesEvents {
    /// An event may be answered with this reply, and change the first value into the second.
    ghost step: { Self → Happening → EventReply → Self → Type 0 };

    /// Carries out `event`, and returns its reply.
    fn happen(&mut self, event: &Event<'_>) -> EventReply
        ensures step { step self.old (happening_of event.now) result self.new };
}

impl<D: Disk> TakesEvents for Binders<D> {
    ghost use Rattle.binders.specs.EventsRan.{EventStep};

    ghost step = { EventStep D.facts };

    fn happen(&mut self, event: &Event<'_>) -> EventReply {
        Binders::happen(self, event)
    }
}

impl<G: TakesEvents> TakesEvents for Watched<G> {
    ghost use Rattle.commands.specs.inside.Watched.{WatchedStep};

    ghost step = { WatchedStep G.step };

    #[tactic(auto, using(crate::proofs::Statuses::watched_answers))]
    fn happen(&mut self, event: &Event<'_>) -> EventReply {
        let reply = self.binders.happen(event);
        self.worst = greatest(self.worst, event_status(&reply));
        reply
    }
}
