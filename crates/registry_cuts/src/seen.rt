// Finds the listing and the binds of the registry on a disk, and of a plain registry.

use crate::answer::answers;
use crate::cut::{Cut, Powered};
use crate::event::{Event, bind};
use crate::run::Beginning;
use anyhow::{Result, bail};
use plain_registry::PlainRegistry;
use registry::Registry;
use requests::{Command, Reply};
use samples::{SIZE, padded, program};
use sector_disk::{Disk, Memory};
use std::alloc::Global;
use std::rc::Rc;
use store::StoreRefusal;

/// Commands that show the state of a registry. They bind a program that needs the library `a` and a
/// program that needs no library, and install libraries to find out the number of free sectors.
#[derive(Drop)]
pub(crate) struct Probe {
    needing: Vec<u8>,
    alone: Vec<u8>,
    fitting: Vec<Vec<u8>>,
}

/// The listing and the binds of the registry on a disk, or the refusal if there is no registry.
#[derive(Drop, PartialEq)]
pub(crate) struct Seen {
    /// The refusal of the opening. A registry of version 1 is upgraded to list it and to bind with
    /// it.
    refusal: Option<StoreRefusal>,
    /// The number of calls of the disk that an opening makes. If there is no registry, or one of
    /// version 1, an opening reads only the roots.
    pub(crate) opening: u64,
    answers: Vec<Vec<u8>>,
}

impl Probe {
    /// Makes a probe. It shows whether the library `a` is installed, and in which version. It also
    /// shows how many of `sectors` sectors are free: it installs libraries, each of which takes one
    /// sector less than the previous one, until one fits. Roots and catalogues take four sectors,
    /// so the first library never fits.
    pub(crate) fn new(alloc: Global, sectors: u32) -> Result<Probe> {
        let mut fitting = Vec::new(alloc);
        for count in (1..sectors.saturating_sub(3) as usize).rev() {
            fitting.push(padded(alloc, b'z', 0, count.saturating_mul(512))?)?;
        }
        Ok(Probe {
            needing: Vec::from_slice(alloc, &program(b'a'))?,
            alone: padded(alloc, b'p', 0, SIZE)?,
            fitting,
        })
    }

    // Returns a listing and two binds, which show a state, followed by the commands that show its
    // free sectors.
    fn looks(&self, alloc: Global) -> Result<Vec<Command<'_>>> {
        let looks = [Command::List, bind(&self.needing), bind(&self.alone)];
        let mut looks = Vec::from_slice(alloc, &looks)?;
        for file in &self.fitting {
            looks.push(Command::Install(file))?;
        }
        Ok(looks)
    }
}

// Returns the state that the answers of a registry show, with the number of calls of an opening. An
// opening makes a sync, and reads two root sectors, the catalogues, and the entry and the file of
// each library.
fn seen_of(alloc: Global, replies: &[Reply]) -> Result<Seen> {
    let mut opening = 3u64;
    if let Some(Reply::Listing(listing)) = replies.first() {
        opening = opening.saturating_add(listing.libraries.len().div_ceil(64) as u64);
        for (_, length) in &listing.libraries {
            let sectors = u64::from(length.div_ceil(512));
            opening = opening.saturating_add(sectors).saturating_add(1);
        }
    }
    Ok(Seen {
        refusal: None,
        opening,
        answers: answers(alloc, replies)?,
    })
}

// Makes the changes in a plain registry.
fn make(plain: &mut PlainRegistry, changes: &[Rc<Event>]) -> Result<()> {
    for change in changes {
        if !matches!(plain.apply(&change.command()), Reply::Done) {
            bail!("a command was refused");
        }
    }
    Ok(())
}

// Runs these commands on a registry, if there is one.
fn ask<D: Disk + Drop>(
    alloc: Global,
    made: std::result::Result<Registry<D>, (StoreRefusal, D)>,
    looks: &[Command<'_>],
) -> Result<Seen> {
    match made {
        Ok(registry) => {
            let mut registry = registry;
            let replies = registry.run(looks);
            let _ = registry.into_disk();
            seen_of(alloc, &replies?)
        }
        Err((refusal, _)) => Ok(Seen::refused(alloc, refusal)),
    }
}

/// Upgrades a disk, with its fuse, and returns the state of the registry that is made.
pub(crate) fn look_upgraded(alloc: Global, disk: Powered, probe: &Probe) -> Result<Seen> {
    let looks = probe.looks(alloc)?;
    ask(alloc, Registry::upgrade(alloc, disk), &looks)
}

/// Opens a disk, with its fuse, and returns the state of its registry. Upgrades a disk of version
/// 1.
pub(crate) fn look_behind(alloc: Global, disk: Powered, probe: &Probe) -> Result<Seen> {
    let looks = probe.looks(alloc)?;
    match Registry::open(alloc, disk) {
        Err((StoreRefusal::OldFormat, disk)) => {
            Ok(ask(alloc, Registry::upgrade(alloc, disk), &looks)?.before_upgrade())
        }
        made => ask(alloc, made, &looks),
    }
}

/// Opens a disk of version 2, of any type, and returns the state of its registry.
pub(crate) fn look_on<D: Disk + Drop>(alloc: Global, disk: D, probe: &Probe) -> Result<Seen> {
    let looks = probe.looks(alloc)?;
    ask(alloc, Registry::open(alloc, disk), &looks)
}

/// Opens a disk, and returns the state of its registry.
pub(crate) fn look(alloc: Global, disk: Memory, probe: &Probe) -> Result<Seen> {
    look_behind(alloc, Cut::NONE.of(disk), probe)
}

impl Seen {
    /// Returns the state of a disk without a registry, with this refusal.
    pub(crate) fn refused(alloc: Global, refusal: StoreRefusal) -> Seen {
        Seen {
            refusal: Some(refusal),
            opening: 3,
            answers: Vec::new(alloc),
        }
    }

    /// Returns the expected state after these changes: the answers of a plain registry that has the
    /// room of a disk of `sectors` sectors.
    pub(crate) fn of(
        alloc: Global,
        sectors: u32,
        changes: &[Rc<Event>],
        probe: &Probe,
    ) -> Result<Seen> {
        let mut plain = PlainRegistry::new(alloc, sectors);
        make(&mut plain, changes)?;
        seen_of(alloc, &plain.run(&probe.looks(alloc)?)?)
    }

    /// Returns the expected state before a registry is made in this way, or after it.
    pub(crate) fn side(self, alloc: Global, beginning: Beginning, is_before: bool) -> Seen {
        match beginning {
            Beginning::Full => Seen::refused(alloc, StoreRefusal::Full),
            Beginning::Format if is_before => Seen::refused(alloc, StoreRefusal::NotFormatted),
            Beginning::Upgrade if is_before => self.before_upgrade(),
            _ => self,
        }
    }

    /// Returns the expected state before an upgrade.
    fn before_upgrade(self) -> Seen {
        match self.refusal {
            None => Seen {
                refusal: Some(StoreRefusal::OldFormat),
                opening: 3,
                answers: self.answers,
            },
            Some(_) => self,
        }
    }
}
