// A plain registry with binders: the expected answer to each event, for each call of the disk that
// may fail.

use crate::answer::{DONE, answer, event_answer};
use crate::cut::Cut;
use crate::event::{Event, What};
use crate::seen::{Probe, Seen};
use crate::sides::Sides;
use crate::wanted::{Wanted, Which, by_table};
use anyhow::{Result, bail};
use binders::EventReply;
use plain_registry::PlainRegistry;
use requests::{Listing, Refusal, Reply};
use std::alloc::Global;
use std::rc::Rc;

// A library that a change has added: its name, the number of sectors that it takes, and the number
// of changes that were made before it was added. If the library was removed, also the number of
// changes that were made before its removal.
#[derive(Clone, Copy)]
struct Hold {
    name: u8,
    sectors: u32,
    since: usize,
    until: usize,
}

// A binder: the event that began it; the number of changes that were made before that event; the
// number of sectors that each of its steps reads, with the next step last; and its last answer.
#[derive(Drop)]
struct Flight {
    event: Rc<Event>,
    begun: usize,
    steps: Vec<u64>,
    answer: Vec<u8>,
}

/// A plain registry with binders, on a disk of `sectors` sectors.
pub(crate) struct Plain {
    alloc: Global,
    sectors: u32,
    // Whether binders keep the state in which they began. If they don't, they keep no libraries,
    // and their answers are about the state at their last step. This is a deliberate fault.
    keeps: bool,
    registry: PlainRegistry,
    holds: Vec<Hold>,
    flights: Vec<Option<Flight>>,
    // The changes that were accepted.
    old: Vec<Rc<Event>>,
    // The same changes and, after them, the change that failed, if there is one.
    new: Vec<Rc<Event>>,
    /// The state that must be found if the disk is opened again.
    pub(crate) wanted: Wanted,
}

// Only this function drops the parts. A derived drop would be proved again on each way out of every
// function that has a `Plain`.
impl Drop for Plain {
    fn drop(self) {
        let Plain {
            alloc: _,
            sectors: _,
            keeps: _,
            registry: _registry,
            holds: _holds,
            flights: _flights,
            old: _old,
            new: _new,
            wanted: _,
        } = self;
    }
}

// The answer to an event, and the number of the disk's calls that the event makes.
type Told = (Vec<u8>, u64);

fn told(alloc: Global, reply: EventReply, calls: u64) -> Result<Told> {
    Ok((event_answer(alloc, &reply)?, calls))
}

fn refused(alloc: Global, refusal: Refusal) -> Result<Told> {
    told(alloc, EventReply::Replied(Reply::Refused(refusal)), 0)
}

// Appends the number of sectors of the library `name` to `steps`, if the library is listed.
fn put_sectors(steps: &mut Vec<u64>, listing: &Listing, name: &[u8]) -> Result<()> {
    for (other, length) in &listing.libraries {
        if other.as_bytes() == name {
            steps.push(u64::from(length.div_ceil(512)))?;
        }
    }
    Ok(())
}

impl Plain {
    /// Makes a registry after the changes `start`, without binders. If `keeps` is true, binders
    /// keep the state in which they begin.
    pub(crate) fn of(
        alloc: Global,
        sectors: u32,
        start: &[Rc<Event>],
        keeps: bool,
    ) -> Result<Plain> {
        let mut plain = Plain {
            alloc,
            sectors,
            keeps,
            registry: PlainRegistry::new(alloc, sectors),
            holds: Vec::new(alloc),
            flights: Vec::new(alloc),
            old: Vec::new(alloc),
            new: Vec::new(alloc),
            wanted: Wanted::only(Which::New),
        };
        for _ in 0..8 {
            plain.flights.push(None)?;
        }
        for change in start {
            let _ = plain.happen(change, None)?;
        }
        Ok(plain)
    }

    fn has_failed(&self) -> bool {
        self.new.len() > self.old.len()
    }

    // Records a change that was accepted.
    fn note(&mut self, change: &Rc<Event>) -> Result<()> {
        self.old.push(Rc::clone(change)?)?;
        self.new.push(Rc::clone(change)?)?;
        let now = self.old.len();
        if change.what == What::Replace || change.what == What::Remove {
            for hold in &mut self.holds {
                if hold.name == change.name && hold.until > now {
                    hold.until = now;
                }
            }
        }
        if change.what == What::Install || change.what == What::Replace {
            let sectors = u32::try_from(change.bytes.len().div_ceil(512))?;
            self.holds.push(Hold {
                name: change.name,
                sectors: sectors.saturating_add(1),
                since: now,
                until: usize::MAX,
            })?;
        }
        Ok(())
    }

    // Returns whether a binder keeps the library of a hold.
    fn is_kept(&self, hold: &Hold) -> bool {
        let is_held = self.flights.iter().any(|flight| match flight {
            Some(flight) => hold.since <= flight.begun && flight.begun < hold.until,
            None => false,
        });
        self.keeps && is_held
    }

    // Returns the number of the disk's sectors, without those that only binders keep.
    fn room(&self) -> u32 {
        let mut room = self.sectors;
        for hold in &self.holds {
            if hold.until <= self.old.len() && self.is_kept(hold) {
                room = room.saturating_sub(hold.sectors);
            }
        }
        room
    }

    // Returns the number of sectors that each step of a program's bind reads, with the first step
    // last in the list. The first step and the last step read no sectors. Each step between them
    // reads a library: first the preloads, and then the needed library. Libraries need no
    // libraries.
    fn steps(&self, needed: u8) -> Result<Vec<u64>> {
        let needed = [needed];
        let listing = self.registry.list()?;
        let mut steps = vec![in self.alloc; 0; 1]?;
        let mut is_preload = false;
        for name in &listing.preloads {
            is_preload = is_preload || name.as_bytes() == needed.as_slice();
            put_sectors(&mut steps, &listing, name.as_bytes())?;
        }
        if !is_preload {
            put_sectors(&mut steps, &listing, &needed)?;
        }
        steps.push(0)?;
        steps.reverse();
        Ok(steps)
    }

    // Returns the number of calls of the disk that a command makes. If the command isn't carried
    // out, only a bind makes calls: it reads libraries until one is missing.
    fn calls(&self, event: &Event, is_done: bool) -> Result<u64> {
        if is_done {
            return Ok(event.calls(self.registry.list()?.libraries.len()));
        }
        let mut all = 0u64;
        if event.what == What::Bind {
            for sectors in &self.steps(event.name)? {
                all = all.saturating_add(*sectors);
            }
        }
        Ok(all)
    }

    // Applies the command of an event to the plain registry, and returns the text of its reply.
    fn ask(&mut self, event: &Event) -> Result<Vec<u8>> {
        answer(self.alloc, &self.registry.apply(&event.command()))
    }

    // Returns the answer to a command whose call is cut. If the plain registry has carried out the
    // command, the command is a change.
    fn fail(&mut self, event: &Rc<Event>, is_done: bool, calls: u64, cut: Cut) -> Result<Told> {
        if is_done {
            self.new.push(Rc::clone(event)?)?;
            self.wanted = by_table(cut, calls);
        }
        refused(self.alloc, Refusal::Device)
    }

    // Returns the answer to a command. A cut applies if there is one and the command makes calls.
    fn give(&mut self, event: &Rc<Event>, cut: Option<Cut>) -> Result<Told> {
        let room = self.room();
        self.registry.set_sectors(room);
        let text = self.ask(event)?;
        let is_done = text.as_slice() == DONE;
        let calls = self.calls(event, is_done)?;
        match cut {
            Some(cut) if calls > 0 => return self.fail(event, is_done, calls, cut),
            _ if is_done => self.note(event)?,
            _ => {}
        }
        Ok((text, calls))
    }

    fn begin(&mut self, event: &Rc<Event>) -> Result<Told> {
        let Some(slot) = self.flights.iter().position(|flight| flight.is_none()) else {
            return refused(self.alloc, Refusal::NoSlot);
        };
        let answer = self.ask(event)?;
        let steps = self.steps(event.name)?;
        let flight = Flight {
            event: Rc::clone(event)?,
            begun: self.old.len(),
            steps,
            answer,
        };
        if let Some(place) = self.flights.get_mut(slot) {
            *place = Some(flight);
        }
        told(self.alloc, EventReply::Slot(slot), 0)
    }

    // Makes a step of the binder in slot `slot`. Returns whether another step follows.
    fn step(&mut self, slot: usize) -> bool {
        if let Some(Some(flight)) = self.flights.get_mut(slot) {
            let _ = flight.steps.pop();
            return !flight.steps.is_empty();
        }
        false
    }

    // Ends the binder in slot `slot`, and returns its answer.
    fn end(&mut self, slot: usize) -> Result<Vec<u8>> {
        match self.take(slot) {
            Some(flight) if self.keeps => Ok(flight.answer),
            Some(flight) => self.ask(&flight.event),
            None => bail!("no binder"),
        }
    }

    // Returns the answer to a step of the binder in slot `slot`. A cut applies if there is one and
    // the step makes calls.
    fn advance(&mut self, slot: usize, cut: Option<Cut>) -> Result<Told> {
        let calls = match self.flights.get(slot) {
            Some(Some(flight)) => flight.steps.last().copied().unwrap_or(0),
            _ => return refused(self.alloc, Refusal::NoSuchBinder),
        };
        if self.has_failed() {
            return refused(self.alloc, Refusal::Reopen);
        }
        if calls > 0 && cut.is_some() {
            return refused(self.alloc, Refusal::Device);
        }
        if self.step(slot) {
            return told(self.alloc, EventReply::Going, calls);
        }
        Ok((self.end(slot)?, calls))
    }

    // Removes the binder from slot `slot`, if there is one.
    fn take(&mut self, slot: usize) -> Option<Flight> {
        self.flights.get_mut(slot)?.take()
    }

    /// Carries out an event. A cut applies if there is one and the event makes calls of the disk.
    pub(crate) fn happen(&mut self, event: &Rc<Event>, cut: Option<Cut>) -> Result<Told> {
        match event.what {
            What::Advance => self.advance(event.slot, cut),
            What::Cancel => match self.take(event.slot) {
                Some(_) => told(self.alloc, EventReply::Replied(Reply::Done), 0),
                None => refused(self.alloc, Refusal::NoSuchBinder),
            },
            _ if self.has_failed() => refused(self.alloc, Refusal::Reopen),
            What::Begin => self.begin(event),
            _ => self.give(event, cut),
        }
    }

    /// Carries out events with this cut, and returns their answers.
    pub(crate) fn run(&mut self, events: &[Rc<Event>], cut: Cut) -> Result<Vec<Vec<u8>>> {
        let mut answers = Vec::new(self.alloc);
        for (at, event) in events.iter().enumerate() {
            answers.push(self.happen(event, cut.at(at.saturating_add(1)))?.0)?;
        }
        self.wanted.cut = cut;
        Ok(answers)
    }

    /// Returns the changes that lead to the new state if `is_new` is true, and those that lead to
    /// the old state otherwise.
    pub(crate) fn changes(&self, is_new: bool) -> &[Rc<Event>] {
        if is_new { &self.new } else { &self.old }
    }

    /// Returns the listing and the binds of the old and of the new state, without binders.
    pub(crate) fn sides<'b>(&self, probe: &'b Probe) -> Result<Sides<'b>> {
        Ok(Sides {
            old: Seen::of(self.alloc, self.sectors, &self.old, probe)?,
            new: Seen::of(self.alloc, self.sectors, &self.new, probe)?,
            probe,
        })
    }
}
