// Carries out tasks on a disk in memory or on a disk over a file, and cuts each call. Opens each
// disk that a stop may leave.

use crate::allowed::Allowed;
use crate::cut::Cut;
use crate::event::Event;
use crate::mixture::{all_picks, stopped};
use crate::run::Told;
use crate::seen::{Seen, look, look_on};
use crate::tally::Tally;
use crate::task::{Asked, Task};
use anyhow::{Result, bail};
use file_disk::{CallOutcome, FileDisk, FilePlan, MemoryFile};
use sector_disk::Memory;
use std::alloc::Global;
use std::fmt::Debug;
use std::rc::Rc;

// A number that is greater than the number of calls that any task makes.
const MOST_CALLS: u64 = 1000;

/// The kinds of disks: in memory, and over a file in memory.
#[derive(Clone, Copy, PartialEq, Eq)]
enum Under {
    Disk,
    File,
}

// The ways to cut a call of a file: the maximum number of sectors that the call transfers, whether
// the call then fails, and whether all later calls fail. A sync with a maximum above 0 syncs the
// file.
const TURNS: [(usize, bool, bool); 6] = [
    (0, true, false),
    (0, true, true),
    (1, true, false),
    (1, true, true),
    (usize::MAX, true, true),
    (1, false, false),
];

// The plan of a file whose calls are never cut.
const UNCUT: FilePlan = FilePlan {
    call: u64::MAX,
    outcome: CallOutcome {
        most: 0,
        fails: true,
    },
    forever: true,
};

// Returns the plan that cuts call number `call` in one of these ways.
fn plan(call: u64, outcome: (usize, bool, bool)) -> FilePlan {
    let (most, fails, forever) = outcome;
    FilePlan {
        call,
        outcome: CallOutcome { most, fails },
        forever,
    }
}

// A task, the kind of its disk, and those of its states that have been found.
#[derive(Drop)]
struct Trial<'a> {
    task: &'a Task,
    under: Under,
    found: Vec<bool>,
}

// Makes a disk over a file in memory.
fn over(alloc: Global, medium: Memory, plan: FilePlan) -> Result<FileDisk<MemoryFile>> {
    Ok(FileDisk::over(alloc, MemoryFile::new(medium, plan))?)
}

impl<'a> Trial<'a> {
    fn of(alloc: Global, task: &'a Task, under: Under) -> Result<Trial<'a>> {
        Ok(Trial {
            task,
            under,
            found: vec![in alloc; false; task.states.len()]?,
        })
    }

    // Opens a disk that a stop has left, and returns its state.
    fn see(&self, alloc: Global, left: Memory) -> Result<Seen> {
        match self.under {
            Under::Disk => look(alloc, left, &self.task.probe),
            Under::File => look_on(alloc, over(alloc, left, UNCUT)?, &self.task.probe),
        }
    }

    // Records that a state was found. Returns whether the disk may have this state.
    fn note(&mut self, seen: &Seen, allowed: Allowed) -> bool {
        let mut is_right = false;
        for number in allowed.least..=allowed.most {
            if self.task.states.get(number) == Some(seen) {
                is_right = true;
                if let Some(found) = self.found.get_mut(number) {
                    *found = true;
                }
            }
        }
        is_right
    }

    // Opens each disk that a stop may leave after these answers, and compares its state with the
    // allowed ones.
    fn open(
        &mut self,
        tally: &mut Tally,
        told: &Told,
        left: &Memory,
        place: &impl Debug,
    ) -> Result<()> {
        let alloc = tally.rt.alloc();
        let allowed = Allowed::by(self.task, told);
        tally.count(allowed.right, place, "the answers");
        for picks in &all_picks(alloc, left)? {
            let seen = self.see(alloc, stopped(left, picks)?)?;
            let right = self.note(&seen, allowed);
            tally.count(right, place, "what is left");
        }
        Ok(())
    }

    // Returns whether these are the answers of a run without a cut.
    fn is_whole(&self, told: &Told) -> bool {
        match told {
            Ok(answers) => *answers == self.task.wanted,
            Err(_) => false,
        }
    }

    // Cuts the call after the first `call` calls. Returns whether the task makes this call.
    fn cut_disk(&mut self, tally: &mut Tally, call: u64, way: u64) -> Result<bool> {
        let alloc = tally.rt.alloc();
        let cut = Cut::nth(0, call, way);
        let (told, disk) = self.task.play(alloc, cut.of(self.task.disk.copy()?))?;
        self.open(tally, &told, &disk.into_inner(), &cut)?;
        Ok(!self.is_whole(&told))
    }

    // Cuts each call of the disk, early and late, once and for ever, and then one call that is
    // never made.
    fn cut_each(&mut self, tally: &mut Tally) -> Result<()> {
        for before in 0..MOST_CALLS {
            let mut is_made = false;
            for way in 0..Cut::count(1) {
                is_made = self.cut_disk(tally, before, way)? || is_made;
            }
            if !is_made {
                return Ok(());
            }
        }
        bail!("more calls than {MOST_CALLS}")
    }

    // Carries out the task over a file with this plan. Returns the number of calls that remain
    // before the one that is cut.
    fn cut_file(&mut self, tally: &mut Tally, plan: FilePlan) -> Result<u64> {
        let alloc = tally.rt.alloc();
        let disk = over(alloc, self.task.disk.copy()?, plan)?;
        let (told, disk) = self.task.play(alloc, disk)?;
        let file = disk.into_file();
        let left = file.calls_left();
        let place = (plan.call, plan.outcome.most, plan.forever);
        self.open(tally, &told, &file.into_medium(), &place)?;
        if !plan.outcome.fails || left > 0 {
            tally.count(self.is_whole(&told), &place, "the answers of a whole run");
        }
        Ok(left)
    }

    // Cuts each call of the file in each way, except the first call, which counts the sectors.
    fn cut_each_of_file(&mut self, tally: &mut Tally) -> Result<()> {
        let calls = UNCUT.call.saturating_sub(self.cut_file(tally, UNCUT)?);
        for call in 2..=calls {
            for outcome in TURNS {
                let _ = self.cut_file(tally, plan(call, outcome))?;
            }
        }
        Ok(())
    }

    // Cuts each call in each way. Each state must be found after some cut.
    fn cut_all(&mut self, tally: &mut Tally) -> Result<()> {
        match self.under {
            Under::Disk => self.cut_each(tally)?,
            Under::File => self.cut_each_of_file(tally)?,
        }
        for found in &self.found {
            tally.count(*found, &"all cuts", "a state that isn't found");
        }
        Ok(())
    }
}

// Cuts each call of a task on one kind of disk, in each way.
fn cut(tally: &mut Tally, task: &Task, under: Under) -> Result<()> {
    Trial::of(tally.rt.alloc(), task, under)?.cut_all(tally)
}

/// Cuts `events` as commands on a disk over a file, or as an update on both kinds of disks. The
/// disk has `sectors` sectors and a registry after the changes `start`.
pub(crate) fn cut_task(
    tally: &mut Tally,
    asked: Asked,
    sectors: u32,
    start: &[Rc<Event>],
    events: &[Rc<Event>],
) -> Result<()> {
    let mut task = Task::on(tally.rt.alloc(), asked, sectors, start, events)?;
    if tally.on_purpose {
        task.states.reverse();
    }
    if asked == Asked::Update {
        cut(tally, &task, Under::Disk)?;
    }
    cut(tally, &task, Under::File)
}
