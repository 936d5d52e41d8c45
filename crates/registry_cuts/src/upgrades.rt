// Makes formats and upgrades to version 2, and cuts each of their calls.

use crate::cut::{Cut, Powered};
use crate::event::Event;
use crate::mixture::{all_picks, leave_same, stopped};
use crate::run::{Beginning, Run, disk_after};
use crate::seen::{Probe, Seen, look, look_upgraded};
use crate::sides::Sides;
use crate::tally::Tally;
use crate::wanted::{Wanted, by_table};
use anyhow::{Context, Result};
use sector_disk::{Disk, Memory, SECTOR_BYTES};
use std::alloc::Global;
use std::fs;
use std::rc::Rc;
use store::StoreRefusal;

// The number of the disk's calls that a format makes: two reads, a sync, the root, and a sync.
const FORMAT_CALLS: u64 = 5;

// A number of sectors that is greater than any row's registry needs.
const AMPLE: u32 = 64;

// A format or an upgrade: the number of calls of the disk that it makes, its refusal if no call
// fails, and the states before and after it.
#[derive(Drop)]
struct Trial<'a> {
    run: Run,
    calls: u64,
    refusal: Option<StoreRefusal>,
    sides: Sides<'a>,
}

// Writes `bytes` to the sectors of a disk, and makes a sync.
fn fill(disk: &mut Memory, bytes: &[u8]) -> Result<()> {
    for (at, sector) in (0..disk.sectors()).zip(bytes.chunks(SECTOR_BYTES)) {
        if at < disk.sectors() {
            disk.write(at, sector.try_into()?)?;
        }
    }
    disk.sync()?;
    Ok(())
}

// Returns the disk that a file has, with all sectors synced.
fn disk_in(tally: &Tally, file: &str) -> Result<Memory> {
    let bytes = fs::read(tally.rt, file).context(format_args!("the file {file}"))?;
    let sectors = u32::try_from(bytes.len().div_ceil(SECTOR_BYTES))?;
    let mut disk = Memory::new(tally.rt.alloc(), sectors)?;
    fill(&mut disk, &bytes)?;
    Ok(disk)
}

impl<'a> Trial<'a> {
    // Makes the trial of a disk that has the registry after `changes`. An upgrade makes three calls
    // more than an opening of version 2: it reads no catalogue, because version 1 has none, but it
    // writes a catalogue, syncs, writes the root, and syncs.
    fn of(
        alloc: Global,
        beginning: Beginning,
        disk: Memory,
        changes: &[Rc<Event>],
        probe: &'a Probe,
    ) -> Result<Trial<'a>> {
        let old = Seen::of(alloc, AMPLE, changes, probe)?;
        let new = Seen::of(alloc, AMPLE, changes, probe)?;
        let opening = new.opening;
        let (calls, refusal) = match beginning {
            Beginning::Format => (FORMAT_CALLS, None),
            Beginning::Upgrade => (opening.saturating_add(3), None),
            Beginning::Open | Beginning::Newer => (opening, None),
            Beginning::Full => (opening.saturating_sub(1), Some(StoreRefusal::Full)),
        };
        Ok(Trial {
            run: Run {
                disk,
                beginning,
                events: Vec::new(alloc),
            },
            calls,
            refusal,
            sides: Sides {
                old: old.side(alloc, beginning, true),
                new: new.side(alloc, beginning, false),
                probe,
            },
        })
    }

    // Cuts a call of the disk, and compares the answer. Returns the disk.
    fn cut(&self, tally: &mut Tally, cut: Cut) -> Result<Powered> {
        let (told, disk) = self.run.cut(tally.rt.alloc(), 0, cut)?;
        let refusal = if cut.call <= self.calls {
            Some(StoreRefusal::Device)
        } else {
            self.refusal
        };
        tally.count(told.err() == refusal, &cut, "the answer");
        Ok(disk)
    }

    // Cuts a call of the disk, and opens the disk that the cut leaves. If `further` is true, also
    // cuts each call of this opening, or opens the disk with its fuse. After a failed format or
    // upgrade there is no open registry that could return S2 (Reopen).
    fn cut_at(&self, tally: &mut Tally, cut: Cut, further: bool) -> Result<()> {
        let wanted = by_table(cut, self.calls);
        let disk = self.cut(tally, cut)?.into_inner();
        self.sides.open(tally, &disk, wanted)?;
        if further {
            self.open_again(tally, &disk, wanted)?;
        }
        Ok(())
    }

    // Opens the disk that a cut has left again: with a cut at each call of the opening, or with its
    // fuse.
    fn open_again(&self, tally: &mut Tally, disk: &Memory, wanted: Wanted) -> Result<()> {
        if wanted.cut.forever {
            self.sides.cut_all(tally, disk, wanted)
        } else if wanted.cut.call <= self.calls {
            let (_, disk) = self.run.cut(tally.rt.alloc(), 0, wanted.cut)?;
            self.sides.reopen(tally, disk, wanted)
        } else {
            Ok(())
        }
    }

    // Calls `cut_at` for each call of the disk, and for one call after them, which is never made.
    fn cut_each(&self, tally: &mut Tally, further: bool) -> Result<()> {
        for at in 0..Cut::count(self.calls.saturating_add(1)) {
            self.cut_at(tally, Cut::nth(0, 0, at), further)?;
        }
        Ok(())
    }

    // Compares the state of the registry that an upgrade makes, without opening it again.
    fn look_on(&self, tally: &mut Tally) -> Result<()> {
        let disk = Cut::NONE.of(self.run.disk.copy()?);
        let seen = look_upgraded(tally.rt.alloc(), disk, self.sides.probe)?;
        tally.count(seen == self.sides.new, &Cut::NONE, "what an upgrade gives");
        Ok(())
    }

    // Upgrades `left`, the disk that an earlier cut left, and cuts this upgrade at each call.
    fn cut_again(&self, tally: &mut Tally, left: Memory, changes: &[Rc<Event>]) -> Result<()> {
        let alloc = tally.rt.alloc();
        let is_old = look(alloc, left.copy()?, self.sides.probe)? == self.sides.old;
        let beginning = if is_old {
            Beginning::Upgrade
        } else {
            Beginning::Newer
        };
        Trial::of(alloc, beginning, left, changes, self.sides.probe)?.cut_each(tally, false)
    }

    // Cuts the upgrades of every mixture that a cut has left, unless the cut has left the disk
    // unchanged.
    fn cut_behind(&self, tally: &mut Tally, cut: Cut, changes: &[Rc<Event>]) -> Result<()> {
        let alloc = tally.rt.alloc();
        let disk = self.run.left(alloc, 0, cut)?;
        if cut.forever && !leave_same(alloc, &disk, &self.run.disk)? {
            for picks in &all_picks(alloc, &disk)? {
                self.cut_again(tally, stopped(&disk, picks)?, changes)?;
            }
        }
        Ok(())
    }

    // Calls `cut_behind` for each cut.
    fn cut_further(&self, tally: &mut Tally, changes: &[Rc<Event>]) -> Result<()> {
        for at in 0..Cut::count(self.calls) {
            self.cut_behind(tally, Cut::nth(0, 0, at), changes)?;
        }
        Ok(())
    }

    // Makes all cuts of a format or an upgrade of a row's disk.
    fn cut_all(&mut self, tally: &mut Tally, changes: &[Rc<Event>]) -> Result<()> {
        if tally.on_purpose {
            self.sides.exchange();
            return self.cut_each(tally, true);
        }
        self.cut_each(tally, true)?;
        match self.run.beginning {
            Beginning::Format => return Ok(()),
            Beginning::Upgrade => self.cut_further(tally, changes)?,
            _ => self.see_unwritten(tally)?,
        }
        self.look_on(tally)
    }

    // Tests, with each cut, that nothing is written.
    fn see_unwritten(&self, tally: &mut Tally) -> Result<()> {
        let alloc = tally.rt.alloc();
        for at in 0..Cut::count(self.calls.saturating_add(1)) {
            let cut = Cut::nth(0, 0, at);
            let right = leave_same(alloc, &self.run.left(alloc, 0, cut)?, &self.run.disk)?;
            tally.count(right, &cut, "the disk that is left");
        }
        Ok(())
    }
}

/// Cuts a format or an upgrade of a disk that has the registry after the changes `changes`, at each
/// call of the format or the upgrade. After each cut of an upgrade of version 1, cuts another
/// upgrade. The disk is read from a file, or is made with a number of sectors.
pub(crate) fn cut_making(
    tally: &mut Tally,
    beginning: Beginning,
    word: &str,
    changes: &[Rc<Event>],
) -> Result<()> {
    let alloc = tally.rt.alloc();
    let disk = match beginning {
        Beginning::Format => Memory::new(alloc, word.parse::<u32>()?)?,
        Beginning::Upgrade | Beginning::Full => disk_in(tally, word)?,
        Beginning::Open | Beginning::Newer => disk_after(alloc, word.parse::<u32>()?, changes)?,
    };
    let probe = Probe::new(alloc, 0)?;
    Trial::of(alloc, beginning, disk, changes, &probe)?.cut_all(tally, changes)
}
