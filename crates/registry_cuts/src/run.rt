// Runs of a registry on a disk in memory whose calls may be cut.

use crate::answer::event_answers;
use crate::cut::{Cut, Powered};
use crate::event::Event;
use anyhow::{Result, bail};
use binders::Binders;
use registry::Registry;
use sector_disk::Memory;
use std::alloc::Global;
use std::rc::Rc;
use store::StoreRefusal;

/// The way in which a registry is made on a disk.
#[derive(Clone, Copy)]
pub(crate) enum Beginning {
    Open,
    /// A disk of zeros is formatted.
    Format,
    /// A disk of version 1 is upgraded.
    Upgrade,
    /// A disk of version 1 is upgraded, but has no room for it.
    Full,
    /// A disk of version 2 is upgraded.
    Newer,
}

/// The answers to events, or the refusal if there is no registry.
pub(crate) type Told = std::result::Result<Vec<Vec<u8>>, StoreRefusal>;

/// A disk, the way in which a registry is made on it, and the events that happen on this registry.
#[derive(Drop)]
pub(crate) struct Run {
    pub(crate) disk: Memory,
    pub(crate) beginning: Beginning,
    pub(crate) events: Vec<Rc<Event>>,
}

// Carries out events, and returns the answers.
fn happen(
    alloc: Global,
    binders: &mut Binders<Powered>,
    events: &[Rc<Event>],
) -> Result<Vec<Vec<u8>>> {
    let mut given = Vec::new(alloc);
    for event in events {
        given.push(event.binder_event())?;
    }
    let replies = binders.run_events(&given)?;
    event_answers(alloc, &replies)
}

impl Run {
    /// Carries out the first `count` events with this cut. Returns their answers, and the disk.
    pub(crate) fn cut(&self, alloc: Global, count: usize, cut: Cut) -> Result<(Told, Powered)> {
        let disk = cut.of(self.disk.copy()?);
        let events = self.events.get(..count).unwrap_or(&self.events);
        let made = match self.beginning {
            Beginning::Open => Registry::open(alloc, disk),
            Beginning::Format => Registry::format(alloc, disk),
            _ => Registry::upgrade(alloc, disk),
        };
        let registry = match made {
            Ok(registry) => registry,
            Err((refusal, disk)) => return Ok((Err(refusal), disk)),
        };
        let mut binders = Binders::new(alloc, registry);
        let answers = happen(alloc, &mut binders, events);
        let disk = binders.into_registry().into_disk();
        Ok((Ok(answers?), disk))
    }

    /// Returns the disk that the first `count` events leave with this cut.
    pub(crate) fn left(&self, alloc: Global, count: usize, cut: Cut) -> Result<Memory> {
        Ok(self.cut(alloc, count, cut)?.1.into_inner())
    }
}

/// Makes a disk of `sectors` sectors with a registry after these commands.
pub(crate) fn disk_after(alloc: Global, sectors: u32, changes: &[Rc<Event>]) -> Result<Memory> {
    let run = Run {
        disk: Memory::new(alloc, sectors)?,
        beginning: Beginning::Format,
        events: changes.to_vec(alloc)?,
    };
    match run.cut(alloc, changes.len(), Cut::NONE)? {
        (Ok(_), disk) => Ok(disk.into_inner()),
        _ => bail!("format was refused"),
    }
}
