// Events of a registry with binders. They are carried out on a disk whose calls are cut, and their
// answers are compared with the expected ones.

use crate::cut::Cut;
use crate::event::Event;
use crate::mixture::leave_same;
use crate::plain::Plain;
use crate::run::{Beginning, Run};
use crate::seen::{Probe, Seen};
use crate::sides::Sides;
use crate::tally::Tally;
use crate::wanted::{Wanted, Which};
use anyhow::Result;
use sector_disk::Memory;
use std::alloc::Global;
use std::rc::Rc;

// The events on a disk that is opened again. The first event finds no binder; the others begin a
// new binder, which binds.
const AGAIN: &str =
    "advance 0; begin a; advance 0; advance 0; advance 0; advance 0; advance 0; cancel 0";

/// A disk of `sectors` sectors after the changes `start`, and the events on it.
#[derive(Drop)]
pub(crate) struct Course {
    sectors: u32,
    start: Vec<Rc<Event>>,
    pub(crate) run: Run,
    pub(crate) probe: Probe,
}

// Appends to `cuts` the cuts of each of the `calls` calls of event number `event`. `before` calls
// come before the event's calls.
fn put_cuts(cuts: &mut Vec<Cut>, event: usize, before: u64, calls: u64) -> Result<()> {
    for at in 0..Cut::count(calls) {
        cuts.push(Cut::nth(event, before, at))?;
    }
    Ok(())
}

impl Course {
    /// Makes the course of `events` on a disk that has a registry after the changes `start`. If
    /// `room` is true, the number of free sectors is compared too.
    pub(crate) fn on(
        alloc: Global,
        disk: Memory,
        sectors: u32,
        start: &[Rc<Event>],
        events: &[Rc<Event>],
        room: bool,
    ) -> Result<Course> {
        Ok(Course {
            sectors,
            start: start.to_vec(alloc)?,
            run: Run {
                disk,
                beginning: Beginning::Open,
                events: events.to_vec(alloc)?,
            },
            probe: Probe::new(alloc, if room { sectors } else { 0 })?,
        })
    }

    /// Makes the plain registry after the changes `start`. If `keeps` is true, its binders keep the
    /// state in which they begin.
    pub(crate) fn plain(&self, alloc: Global, keeps: bool) -> Result<Plain> {
        Plain::of(alloc, self.sectors, &self.start, keeps)
    }

    /// Returns the cuts of each call of the opening and of each event, and the cut of one call
    /// after all of them, which is never made.
    pub(crate) fn cuts(&self, alloc: Global) -> Result<Vec<Cut>> {
        let mut before = Seen::of(alloc, self.sectors, &self.start, &self.probe)?.opening;
        let mut cuts = Vec::new(alloc);
        put_cuts(&mut cuts, 0, 0, before)?;
        let mut plain = self.plain(alloc, true)?;
        let mut number = 1usize;
        for event in &self.run.events {
            let (_, calls) = plain.happen(event, None)?;
            put_cuts(&mut cuts, number, before, calls)?;
            before = before.saturating_add(calls);
            number = number.saturating_add(1);
        }
        put_cuts(&mut cuts, number, before, 1)?;
        Ok(cuts)
    }

    // Carries out the first `count` events with this cut, and compares the answers. Returns the
    // plain registry and the disk.
    fn leave(&self, tally: &mut Tally, count: usize, cut: Cut) -> Result<(Plain, Memory)> {
        let alloc = tally.rt.alloc();
        let mut plain = self.plain(alloc, !tally.on_purpose)?;
        let wanted = plain.run(
            self.run.events.get(..count).unwrap_or(&self.run.events),
            cut,
        )?;
        let (told, disk) = self.run.cut(alloc, count, cut)?;
        tally.count(told == Ok(wanted), &cut, "the answers");
        Ok((plain, disk.into_inner()))
    }

    // Returns whether event `number`, counted from 1, is a change.
    fn is_change(&self, number: usize) -> bool {
        match self.run.events.get(number.saturating_sub(1)) {
            Some(event) => event.is_change(),
            None => false,
        }
    }

    // Carries out the events with this cut, and opens the disk that the cut leaves. A cut of only
    // one call leaves the same disk as a cut of that call and all later ones: no call follows a
    // change that failed, and a bind that failed changes nothing. A call that fails before it
    // reaches the disk leaves the same disk as a late failure of the previous call.
    fn cut_list_at(&self, tally: &mut Tally, cut: Cut) -> Result<()> {
        let (plain, disk) = self.leave(tally, self.run.events.len(), cut)?;
        let mut sides = plain.sides(&self.probe)?;
        if tally.on_purpose {
            sides.exchange();
        }
        self.open_list(tally, &sides, &disk, plain.wanted)
    }

    // Opens the disk that a cut has left. If the failing call took effect first (`late`) and all
    // later calls failed, also cuts the openings of this disk. If only one call failed, also opens
    // the disk through the `Fuse` that made the call fail.
    fn open_list(&self, tally: &mut Tally, sides: &Sides, disk: &Memory, on: Wanted) -> Result<()> {
        let count = self.run.events.len();
        sides.open(tally, disk, on)?;
        if on.cut.forever && on.cut.late {
            sides.cut_all(tally, disk, on)?;
            sides.cut_stopped(tally, disk)
        } else if !on.cut.forever && on.cut.event <= count {
            let (_, disk) = self.run.cut(tally.rt.alloc(), count, on.cut)?;
            sides.reopen(tally, disk, on)
        } else {
            Ok(())
        }
    }

    /// Cuts a list of commands at each of its calls, including those of the opening, and at one
    /// call after them. Then cuts each opening of the disks that the cuts leave, with and without a
    /// stop before it.
    pub(crate) fn cut_list(&self, tally: &mut Tally) -> Result<()> {
        let plain = self.plain(tally.rt.alloc(), true)?;
        let sides = plain.sides(&self.probe)?;
        sides.cut_all(tally, &self.run.disk, plain.wanted)?;
        for &cut in &self.cuts(tally.rt.alloc())? {
            if !cut.is_in_opening() {
                self.cut_list_at(tally, cut)?;
            }
        }
        Ok(())
    }

    // Opens the disk that the first `count` events leave. `before` is the disk before the last of
    // these events. If that event isn't a change, it must leave the disk unchanged.
    fn follow_one(&self, tally: &mut Tally, count: usize, before: &Memory) -> Result<Memory> {
        let (plain, disk) = self.leave(tally, count, Cut::NONE)?;
        self.open_flight(tally, &plain, &disk)?;
        if !self.is_change(count) {
            let right = leave_same(tally.rt.alloc(), &disk, before)?;
            tally.count(right, &count, "the disk behind a step");
        }
        Ok(disk)
    }

    /// Opens the disk after each event, without a cut.
    pub(crate) fn follow(&self, tally: &mut Tally) -> Result<()> {
        let mut before = self.run.disk.copy()?;
        for count in 1..=self.run.events.len() {
            before = self.follow_one(tally, count, &before)?;
        }
        Ok(())
    }

    // Opens the disk that the events leave again. It has no binder at first, and then a new binder
    // binds.
    fn go_on(&self, tally: &mut Tally, plain: &Plain, disk: Memory) -> Result<()> {
        let alloc = tally.rt.alloc();
        let events = Event::all(alloc, AGAIN)?;
        let start = plain.changes(plain.wanted.reopened != Which::Old);
        let again = Course::on(alloc, disk, self.sectors, start, &events, false)?;
        let _ = again.leave(tally, events.len(), Cut::NONE)?;
        Ok(())
    }

    // Carries out the events with this cut, and opens the disk that the cut leaves. Events after a
    // failed change must not change the disk, and neither must a failed read.
    fn cut_flight_at(&self, tally: &mut Tally, cut: Cut) -> Result<()> {
        let (plain, disk) = self.leave(tally, self.run.events.len(), cut)?;
        self.open_flight(tally, &plain, &disk)?;
        self.compare_left(tally, &disk, cut)?;
        self.go_on(tally, &plain, disk)
    }

    // Opens the disk that a cut has left. If all calls after the first failed one were cut, also
    // cuts each call of this opening.
    fn open_flight(&self, tally: &mut Tally, plain: &Plain, disk: &Memory) -> Result<()> {
        let sides = plain.sides(&self.probe)?;
        sides.open(tally, disk, plain.wanted)?;
        if plain.wanted.cut.forever {
            sides.cut_all(tally, disk, plain.wanted)?;
        }
        Ok(())
    }

    // Compares the disk with the one that only the events before the cut leave. The event that was
    // cut is one of these events only if it is a change.
    fn compare_left(&self, tally: &mut Tally, disk: &Memory, cut: Cut) -> Result<()> {
        let is_change = self.is_change(cut.event);
        if cut.forever || is_change {
            let count = cut.event.saturating_sub(usize::from(!is_change));
            let left = self.run.left(tally.rt.alloc(), count, cut)?;
            let right = leave_same(tally.rt.alloc(), disk, &left)?;
            tally.count(right, &cut, "the disk behind what failed");
        }
        Ok(())
    }

    /// Opens the disk after each event. Then cuts each call of each event, and opens the disk that
    /// the cut leaves.
    pub(crate) fn cut_flights(&self, tally: &mut Tally) -> Result<()> {
        self.follow(tally)?;
        for &cut in &self.cuts(tally.rt.alloc())? {
            if !cut.is_in_opening() && cut.event <= self.run.events.len() {
                self.cut_flight_at(tally, cut)?;
            }
        }
        Ok(())
    }
}
