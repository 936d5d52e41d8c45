// Counts the openings that the rows of a file make, and the openings with an unexpected result.

use std::fmt::Debug;

/// The number of openings that were made, and the number of openings with an unexpected result.
#[derive(Drop)]
pub(crate) struct Tally<'a> {
    pub(crate) rt: &'a HostRuntime,
    pub(crate) openings: u64,
    pub(crate) wrong: u64,
    /// Whether the rows have a deliberate fault. If so, wrong openings aren't printed.
    pub(crate) on_purpose: bool,
}

impl<'a> Tally<'a> {
    pub(crate) fn new(rt: &'a HostRuntime) -> Tally<'a> {
        Tally {
            rt,
            openings: 0,
            wrong: 0,
            on_purpose: false,
        }
    }

    /// Counts an opening. If it was wrong, prints its place.
    pub(crate) fn count(&mut self, right: bool, place: &impl Debug, what: &str) {
        self.openings = self.openings.saturating_add(1);
        if right {
            return;
        }
        self.wrong = self.wrong.saturating_add(1);
        if !self.on_purpose {
            // A failure of this call is ignored: if it fails, printing the line of the file fails
            // too.
            let _ = println!(self.rt; "wrong: {what} at {place:?}");
        }
    }
}
