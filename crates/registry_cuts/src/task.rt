// Tasks for the registry on a disk: commands, or an update and its commit.

use crate::answer::{DONE, answer, with_commit};
use crate::event::Event;
use crate::run::{Told, disk_after};
use crate::seen::{Probe, Seen};
use anyhow::Result;
use plain_registry::PlainRegistry;
use registry::{Registry, Update};
use sector_disk::{Disk, Memory};
use std::alloc::Global;
use std::rc::Rc;

/// The form in which the events of a task are passed to the registry.
#[derive(Clone, Copy, PartialEq, Eq)]
pub(crate) enum Asked {
    /// Commands, each of which is accepted by itself.
    Commands,
    /// Lines of an update, with a commit at the end.
    Update,
}

/// A disk with a registry, events, their expected answers, and the states of the registry before
/// and after each accepted change. An update is one change.
#[derive(Drop)]
pub(crate) struct Task {
    pub(crate) disk: Memory,
    pub(crate) asked: Asked,
    pub(crate) wanted: Vec<Vec<u8>>,
    pub(crate) states: Vec<Seen>,
    pub(crate) probe: Probe,
    events: Vec<Rc<Event>>,
}

// Runs commands on a registry, and returns their answers.
fn give<D: Disk>(
    alloc: Global,
    registry: &mut Registry<D>,
    events: &[Rc<Event>],
) -> Result<Vec<Vec<u8>>> {
    let mut answers = Vec::new(alloc);
    for event in events {
        answers.push(answer(alloc, &registry.apply(&event.command()))?)?;
    }
    Ok(answers)
}

// Runs the lines of an update, and returns their answers.
fn draft<D: Disk>(
    alloc: Global,
    update: &mut Update<D>,
    lines: &[Rc<Event>],
) -> Result<Vec<Vec<u8>>> {
    let mut answers = Vec::new(alloc);
    for line in lines {
        answers.push(answer(alloc, &update.apply(&line.command()))?)?;
    }
    Ok(answers)
}

// Makes an update, runs its lines, and commits it.
fn update<D: Disk>(
    alloc: Global,
    registry: Registry<D>,
    lines: &[Rc<Event>],
) -> (Result<Vec<Vec<u8>>>, Registry<D>) {
    let mut update = match registry.update() {
        Ok(update) => update,
        Err((refusal, registry)) => {
            return (with_commit(alloc, Vec::new(alloc), Err(refusal)), registry);
        }
    };
    let answers = draft(alloc, &mut update, lines);
    let (made, registry) = update.commit();
    let answers = match answers {
        Ok(answers) => with_commit(alloc, answers, made),
        Err(fault) => Err(fault),
    };
    (answers, registry)
}

impl Task {
    /// Returns the task of `events` on a disk of `sectors` sectors, after the changes `start`.
    pub(crate) fn on(
        alloc: Global,
        asked: Asked,
        sectors: u32,
        start: &[Rc<Event>],
        events: &[Rc<Event>],
    ) -> Result<Task> {
        let probe = Probe::new(alloc, sectors)?;
        let states = vec![in alloc; Seen::of(alloc, sectors, start, &probe)?]?;
        let mut task = Task {
            disk: disk_after(alloc, sectors, start)?,
            asked,
            wanted: Vec::new(alloc),
            states,
            probe,
            events: events.to_vec(alloc)?,
        };
        task.foresee(alloc, sectors, start)?;
        Ok(task)
    }

    // Computes the expected answers and the states with a plain registry.
    fn foresee(&mut self, alloc: Global, sectors: u32, start: &[Rc<Event>]) -> Result<()> {
        let mut plain = PlainRegistry::new(alloc, sectors);
        for change in start {
            let _ = plain.apply(&change.command());
        }
        let mut changes = start.to_vec(alloc)?;
        for event in &self.events {
            let text = answer(alloc, &plain.apply(&event.command()))?;
            if text.as_slice() == DONE {
                changes.push(Rc::clone(event)?)?;
                if self.asked == Asked::Commands {
                    self.states
                        .push(Seen::of(alloc, sectors, &changes, &self.probe)?)?;
                }
            }
            self.wanted.push(text)?;
        }
        if self.asked == Asked::Update {
            self.wanted.push(Vec::from_slice(alloc, DONE)?)?;
            self.states
                .push(Seen::of(alloc, sectors, &changes, &self.probe)?)?;
        }
        Ok(())
    }

    /// Carries out the task on this disk. Returns the answers, and the disk.
    pub(crate) fn play<D: Disk + Drop>(&self, alloc: Global, disk: D) -> Result<(Told, D)> {
        let registry = match Registry::open(alloc, disk) {
            Ok(registry) => registry,
            Err((refusal, disk)) => return Ok((Err(refusal), disk)),
        };
        let (answers, registry) = match self.asked {
            Asked::Commands => {
                let mut registry = registry;
                let answers = give(alloc, &mut registry, &self.events);
                (answers, registry)
            }
            Asked::Update => update(alloc, registry, &self.events),
        };
        let disk = registry.into_disk();
        Ok((Ok(answers?), disk))
    }
}
