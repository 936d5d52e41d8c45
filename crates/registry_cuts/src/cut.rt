// Cuts. A cut is a call of the disk that fails, and the way in which it fails.

use sector_disk::{Fuse, Memory};

/// A disk in memory whose power can be cut.
pub(crate) type Powered = Fuse<Memory>;

/// A call of the disk that fails.
#[derive(Clone, Copy, Debug)]
pub(crate) struct Cut {
    /// The number of the event that makes the call, counted from 1, or 0 if the opening makes it.
    pub(crate) event: usize,
    /// The number of the call among all calls, counted from 1, or 0 if no call fails.
    pub(crate) number: u64,
    /// The number of the call among those of the event, counted from 1.
    pub(crate) call: u64,
    /// Whether the call reaches the disk before it fails.
    pub(crate) late: bool,
    /// Whether all later calls fail too.
    pub(crate) forever: bool,
}

impl Cut {
    /// The cut in which no call fails.
    pub(crate) const NONE: Cut = Cut {
        event: 0,
        number: 0,
        call: 0,
        late: false,
        forever: false,
    };

    /// Returns the disk with this cut.
    pub(crate) fn of(self, disk: Memory) -> Powered {
        Fuse::new(disk, self.number, self.forever, self.late)
    }

    /// Returns whether a call of the opening fails.
    pub(crate) fn is_in_opening(self) -> bool {
        self.event == 0 && self.call > 0
    }

    /// If a call of event number `event` fails, returns the cut of this call. In the events after a
    /// cut for ever, this is the event's first call.
    pub(crate) fn at(self, event: usize) -> Option<Cut> {
        if event == self.event {
            Some(self)
        } else if event > self.event && self.forever {
            Some(Cut {
                call: 1,
                late: false,
                ..self
            })
        } else {
            None
        }
    }

    /// Returns the number of cuts of `calls` calls: each call can fail early or late, once or for
    /// ever.
    pub(crate) fn count(calls: u64) -> u64 {
        calls.saturating_mul(4)
    }

    /// Returns cut number `at`, counted from 0, of the calls of event number `event`, which come
    /// after `before` other calls.
    pub(crate) fn nth(event: usize, before: u64, at: u64) -> Cut {
        let call = (at / 4).saturating_add(1);
        Cut {
            event,
            number: before.saturating_add(call),
            call,
            late: at % 4 >= 2,
            forever: at % 2 == 1,
        }
    }
}
