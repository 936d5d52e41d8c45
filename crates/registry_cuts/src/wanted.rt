// Computes the states that a disk may have after one of its calls has failed. They depend on the
// number of the call.

use crate::cut::Cut;

/// The state before a change, the state after it, or either of the two.
#[derive(Clone, Copy, PartialEq, Eq)]
pub(crate) enum Which {
    Old,
    New,
    Either,
}

/// The state that must be found if the disk is opened again immediately, and the states that may be
/// found if it is opened after a stop.
#[derive(Clone, Copy)]
pub(crate) struct Wanted {
    /// The cut that left the disk.
    pub(crate) cut: Cut,
    pub(crate) reopened: Which,
    pub(crate) stopped: Which,
}

impl Which {
    /// Returns whether a state may be found. `is_old` is true if it is the old state, and `is_new`
    /// is true if it is the new state.
    pub(crate) fn allows(self, is_old: bool, is_new: bool) -> bool {
        match self {
            Which::Old => is_old,
            Which::New => is_new,
            Which::Either => is_old || is_new,
        }
    }
}

/// Returns the states that may be found after a cut of a change that makes `calls` calls. The last
/// call is a sync, and the one before it writes the root. A late call has reached the disk.
pub(crate) fn by_table(cut: Cut, calls: u64) -> Wanted {
    let (failed, late) = (cut.call, cut.late);
    let (reopened, stopped) = if failed > calls {
        (Which::New, Which::New)
    } else if failed == calls {
        (Which::New, if late { Which::New } else { Which::Either })
    } else if failed == calls.saturating_sub(1) && late {
        (Which::New, Which::Either)
    } else {
        (Which::Old, Which::Old)
    };
    Wanted {
        cut,
        reopened,
        stopped,
    }
}

impl Wanted {
    /// Returns the value that allows only the state `which`.
    pub(crate) fn only(which: Which) -> Wanted {
        Wanted {
            cut: Cut::NONE,
            reopened: which,
            stopped: which,
        }
    }

    /// Returns the states that may be found on a disk whose opening was cut. The first call of the
    /// opening is a sync. After the sync has reached the disk, a stop leaves only the state that
    /// the opening finds.
    pub(crate) fn after_opening(self, cut: Cut) -> Wanted {
        let stopped = if cut.call > 1 || cut.late {
            self.reopened
        } else {
            self.stopped
        };
        Wanted {
            cut,
            stopped,
            ..self
        }
    }
}
