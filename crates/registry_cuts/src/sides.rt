// Opens the disks that cuts have left, immediately and after each stop, and cuts these openings
// too.

use crate::cut::{Cut, Powered};
use crate::mixture::{all_picks, stopped};
use crate::seen::{Probe, Seen, look, look_behind};
use crate::tally::Tally;
use crate::wanted::{Wanted, Which};
use anyhow::Result;
use registry::Registry;
use sector_disk::Memory;
use std::alloc::Global;
use store::StoreRefusal;

/// The states before and after a change, and the probe that shows them.
#[derive(Drop)]
pub(crate) struct Sides<'a> {
    pub(crate) old: Seen,
    pub(crate) new: Seen,
    pub(crate) probe: &'a Probe,
}

// Opens a disk. Returns the disk, and the refusal if the opening is refused.
fn opened_once(alloc: Global, disk: Powered) -> (Option<StoreRefusal>, Powered) {
    match Registry::open(alloc, disk) {
        Ok(registry) => (None, registry.into_disk()),
        Err((refusal, left)) => (Some(refusal), left),
    }
}

impl Sides<'_> {
    /// Exchanges the old state and the new one.
    pub(crate) fn exchange(&mut self) {
        std::mem::swap(&mut self.old, &mut self.new);
    }

    // Returns the state that must be found if the disk is opened again immediately.
    fn reopened(&self, wanted: Wanted) -> &Seen {
        match wanted.reopened {
            Which::Old => &self.old,
            _ => &self.new,
        }
    }

    /// Opens a disk after a stop, and counts whether it has an allowed state. Returns whether it
    /// has the old state, and whether it has the new one.
    pub(crate) fn see(&self, tally: &mut Tally, disk: &Memory, on: Wanted) -> Result<(bool, bool)> {
        let seen = look(tally.rt.alloc(), disk.copy()?, self.probe)?;
        let (is_old, is_new) = (seen == self.old, seen == self.new);
        tally.count(on.stopped.allows(is_old, is_new), &on.cut, "a mixture");
        Ok((is_old, is_new))
    }

    // Opens every mixture that a stop of the disk may leave.
    fn open_mixtures(&self, tally: &mut Tally, disk: &Memory, wanted: Wanted) -> Result<()> {
        let (mut old, mut new) = (false, false);
        for picks in &all_picks(tally.rt.alloc(), disk)? {
            let (is_old, is_new) = self.see(tally, &stopped(disk, picks)?, wanted)?;
            old = old || is_old;
            new = new || is_new;
        }
        // If a stop may leave both states, both must be found.
        if wanted.stopped == Which::Either && !(old && new) {
            tally.count(false, &wanted.cut, "one state alone");
        }
        Ok(())
    }

    /// Opens a disk that a cut has left, with its fuse.
    pub(crate) fn reopen(&self, tally: &mut Tally, disk: Powered, wanted: Wanted) -> Result<()> {
        let again = look_behind(tally.rt.alloc(), disk, self.probe)?;
        let right = again == *self.reopened(wanted);
        tally.count(right, &wanted.cut, "opened again on the same disk");
        Ok(())
    }

    /// Opens a disk that a cut has left, immediately and after each stop.
    pub(crate) fn open(&self, tally: &mut Tally, disk: &Memory, wanted: Wanted) -> Result<()> {
        let again = look(tally.rt.alloc(), disk.copy()?, self.probe)?;
        let right = again == *self.reopened(wanted);
        tally.count(right, &wanted.cut, "opened again");
        self.open_mixtures(tally, disk, wanted)
    }

    // Opens a disk with a cut in its opening, and opens the disk that this cut leaves.
    fn cut_one(&self, tally: &mut Tally, disk: &Memory, cut: Cut, wanted: Wanted) -> Result<()> {
        let (refusal, left) = opened_once(tally.rt.alloc(), cut.of(disk.copy()?));
        let right = refusal == Some(StoreRefusal::Device);
        tally.count(right, &cut, "the answer to a cut opening");
        self.open_left(tally, left, wanted.after_opening(cut))
    }

    // Opens the disk that a cut opening has left.
    fn open_left(&self, tally: &mut Tally, left: Powered, wanted: Wanted) -> Result<()> {
        if wanted.cut.forever {
            self.open_mixtures(tally, &left.into_inner(), wanted)
        } else {
            self.reopen(tally, left, wanted)
        }
    }

    /// Cuts each call of an opening of this disk. The opening must return S1 (Device), and leave
    /// the state unchanged.
    pub(crate) fn cut_all(&self, tally: &mut Tally, disk: &Memory, wanted: Wanted) -> Result<()> {
        for at in 0..Cut::count(self.reopened(wanted).opening) {
            self.cut_one(tally, disk, Cut::nth(0, 0, at), wanted)?;
        }
        Ok(())
    }

    // Cuts each call of an opening of a disk that a stop has left.
    fn cut_left(&self, tally: &mut Tally, left: &Memory) -> Result<()> {
        let is_old = look(tally.rt.alloc(), left.copy()?, self.probe)? == self.old;
        let stands = if is_old { Which::Old } else { Which::New };
        self.cut_all(tally, left, Wanted::only(stands))
    }

    /// Cuts each call of an opening of every mixture that a stop of the disk may leave. Each
    /// opening must leave the state unchanged.
    pub(crate) fn cut_stopped(&self, tally: &mut Tally, disk: &Memory) -> Result<()> {
        for picks in &all_picks(tally.rt.alloc(), disk)? {
            self.cut_left(tally, &stopped(disk, picks)?)?;
        }
        Ok(())
    }
}
