// A disk that fails at a call that its caller chooses.
ghost use Rattle.std.specs.Prelude.{◌≡◌, ◌-◌, length};

use crate::disk::{Disk, DiskFault, SECTOR_BYTES};
use crate::past::Past;

/// The plan of the calls that fail: call number `call`, counted from 1, and all later calls if
/// `forever` is true. If `late` is true, call number `call` reaches the inner disk before it fails.
#[derive(Clone, Copy)]
pub(crate) struct Plan {
    pub call: u64,
    pub forever: bool,
    pub late: bool,
}

/// The outcome of a call: it succeeds, or it fails before or after it has reached the inner disk.
#[derive(Clone, Copy)]
pub(crate) enum CallOutcome {
    Pass,
    Early,
    Late,
}

/// A past call: whether it reached the inner disk, and whether it failed.
#[derive(Clone, Copy)]
pub(crate) struct PastCall {
    pub reached: bool,
    pub failed: bool,
}

/// A disk that passes its calls on to an inner disk, and fails at planned calls. Reads return the
/// contents that reads of the inner disk return. A stop may leave the contents that a stop of the
/// inner disk may leave.
pub struct Fuse<D> {
    inner: D,
    plan: Plan,
    // The number of calls up to the planned one, including it. After the planned call, the number
    // is 0.
    wait: u64,
    past: Past<PastCall>,
    ghost waits: { wait ≡ plan.call - length past.items },
}

impl<D: Disk> Fuse<D> {
    ghost use Rattle.std.specs.Prelude.{◌++◌, ◌∷◌, [], is_err, Err, true, false};
    ghost use Rattle.sector_disk.specs.declared.disk.DiskFault.TheVariants.{Failed};
    ghost use Rattle.sector_disk.specs.Disk.{IsSameDisk};
    ghost use Rattle.sector_disk.specs.Fuse.{fuse_facts, inner_of, plan_of, next_outcome};

    /// Makes a fuse over `inner`. Call number `k` of the fuse fails; reads, writes and syncs are
    /// counted together, from 1. If `forever` is true, all later calls fail too, and don't reach
    /// `inner`. If `late` is true, call number `k` reaches `inner` before it fails. If `k` is 0, a
    /// call fails only if it fails on `inner`.
    pub fn new(inner: D, k: u64, forever: bool, late: bool) -> Fuse<D>
        ensures inner { inner_of result ≡ inner }
        ensures plan { plan_of result ≡ record { call = k; forever = forever; late = late } }
        ensures same { IsSameDisk (D.facts inner) (fuse_facts D.facts result) }
        ensures time { (fuse_facts D.facts result).time ≡ 0 }
        ensures failures { (fuse_facts D.facts result).failures ≡ 0 }
    {
        Fuse {
            inner,
            plan: Plan {
                call: k,
                forever,
                late,
            },
            wait: k,
            past: Past::new(),
        }
    }

    /// Returns the inner disk, in the state after the calls that have reached it.
    pub fn into_inner(self) -> D
        ensures inner { result ≡ inner_of self }
        ensures same { IsSameDisk (fuse_facts D.facts self) (D.facts result) }
    {
        let Fuse {
            inner,
            plan: _,
            wait: _,
            past: _,
        } = self;
        inner
    }

    // Returns the outcome of the next call.
    fn next_outcome(&self) -> CallOutcome
        ensures { result ≡ next_outcome self.now }
    {
        if self.wait == 1 {
            if self.plan.late {
                CallOutcome::Late
            } else {
                CallOutcome::Early
            }
        } else if self.wait == 0 && self.plan.call > 0 && self.plan.forever {
            CallOutcome::Early
        } else {
            CallOutcome::Pass
        }
    }

    // Notes a call: adds it to the past, and counts it towards the planned one.
    fn note(&mut self, call: PastCall)
        ensures inner { self.new.inner ≡ self.old.inner }
        ensures plan { self.new.plan ≡ self.old.plan }
        ensures past { self.new.past.items ≡ self.old.past.items ++ call ∷ [] }
    {
        self.past = self.past.and(&call);
        self.wait = self.wait.saturating_sub(1);
    }

    // Ends a call that has reached the inner disk. The call returns `reply`.
    fn end_call(&mut self, reply: Result<(), DiskFault>) -> Result<(), DiskFault>
        ensures reply { result ≡ reply }
        ensures inner { self.new.inner ≡ self.old.inner }
        ensures plan { self.new.plan ≡ self.old.plan }
        ensures past { self.new.past.items
            ≡ self.old.past.items ++ record { reached = true; failed = is_err reply } ∷ [] }
    {
        self.note(PastCall {
            reached: true,
            failed: reply.is_err(),
        });
        reply
    }

    // Ends a call that fails before it reaches the inner disk.
    fn fail_early(&mut self) -> Result<(), DiskFault>
        ensures reply { result ≡ Err Failed }
        ensures inner { self.new.inner ≡ self.old.inner }
        ensures plan { self.new.plan ≡ self.old.plan }
        ensures past { self.new.past.items
            ≡ self.old.past.items ++ record { reached = false; failed = true } ∷ [] }
    {
        self.note(PastCall {
            reached: false,
            failed: true,
        });
        Err(DiskFault::Failed)
    }
}

// This drop is written by hand for the same reason as the drop of `Memory`.
impl<D: Drop> Drop for Fuse<D> {
    fn drop(self) {
        let Fuse {
            inner: _inner,
            plan: _,
            wait: _,
            past: _past,
        } = self;
    }
}

impl<D: Disk> Disk for Fuse<D> {
    ghost use Rattle.std.specs.Prelude.{◌<◌, IsTrue};
    ghost use Rattle.sector_disk.specs.Disk.{IsCall, IsRead, IsWrite, IsSync};
    ghost use Rattle.sector_disk.specs.Fuse.{fuse_facts, plan_of, next_outcome, HasOutcome};
    ghost use Rattle.sector_disk.specs.Fuse.{WasRead, WasWritten, WasSynced};
    ghost use Rattle.sector_disk.specs.inside.FuseLaws.{fused_holds, fused_whole};

    ghost facts = { fuse_facts D.facts };

    ghost holds_now = { λ fuse honest.
        fused_holds fuse.plan (D.facts fuse.inner) fuse.past.items
        (D.holds_now fuse.inner honest) };

    ghost whole_sectors = { λ fuse honest.
        fused_whole fuse.plan (D.facts fuse.inner) fuse.past.items
        (D.whole_sectors fuse.inner honest) };

    fn sectors(&self) -> u32 {
        self.inner.sectors()
    }

    fn read(&mut self, at: u32, into: &mut [u8; SECTOR_BYTES]) -> Result<(), DiskFault>
        requires { at < (fuse_facts D.facts self.old).sectors }
        ensures calls { IsCall (fuse_facts D.facts self.old) (fuse_facts D.facts self.new) result }
        ensures honest { IsTrue (fuse_facts D.facts self.old).honest
            → IsRead (fuse_facts D.facts self.old) (fuse_facts D.facts self.new)
            at into.new result }
        ensures outcome { HasOutcome (next_outcome self.old) self.old self.new
            (WasRead D.facts self.old self.new at into.new) result }
        ensures plan { plan_of self.new ≡ plan_of self.old }
    {
        match self.next_outcome() {
            CallOutcome::Pass => {
                let reply = self.inner.read(at, into);
                self.end_call(reply)
            }
            CallOutcome::Early => self.fail_early(),
            CallOutcome::Late => {
                let _ = self.inner.read(at, into);
                self.end_call(Err(DiskFault::Failed))
            }
        }
    }

    fn write(&mut self, at: u32, from: &[u8; SECTOR_BYTES]) -> Result<(), DiskFault>
        requires { at < (fuse_facts D.facts self.old).sectors }
        ensures calls { IsCall (fuse_facts D.facts self.old) (fuse_facts D.facts self.new) result }
        ensures honest { IsTrue (fuse_facts D.facts self.old).honest
            → IsWrite (fuse_facts D.facts self.old) (fuse_facts D.facts self.new)
            at from.now result }
        ensures outcome { HasOutcome (next_outcome self.old) self.old self.new
            (WasWritten D.facts self.old self.new at from.now) result }
        ensures plan { plan_of self.new ≡ plan_of self.old }
    {
        match self.next_outcome() {
            CallOutcome::Pass => {
                let reply = self.inner.write(at, from);
                self.end_call(reply)
            }
            CallOutcome::Early => self.fail_early(),
            CallOutcome::Late => {
                let _ = self.inner.write(at, from);
                self.end_call(Err(DiskFault::Failed))
            }
        }
    }

    fn sync(&mut self) -> Result<(), DiskFault>
        ensures calls { IsCall (fuse_facts D.facts self.old) (fuse_facts D.facts self.new) result }
        ensures honest { IsTrue (fuse_facts D.facts self.old).honest
            → IsSync (fuse_facts D.facts self.old) (fuse_facts D.facts self.new) result }
        ensures outcome { HasOutcome (next_outcome self.old) self.old self.new
            (WasSynced D.facts self.old self.new) result }
        ensures plan { plan_of self.new ≡ plan_of self.old }
    {
        match self.next_outcome() {
            CallOutcome::Pass => {
                let reply = self.inner.sync();
                self.end_call(reply)
            }
            CallOutcome::Early => self.fail_early(),
            CallOutcome::Late => {
                let _ = self.inner.sync();
                self.end_call(Err(DiskFault::Failed))
            }
        }
    }
}
