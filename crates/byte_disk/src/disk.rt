// A disk over given bytes, and the plan that turns these bytes into the disk's present contents.

ghost use Rattle.std.specs.Prelude.{◌≡◌, ◌⊎◌, ◌<◌, ◌≤◌, ◌^◌, ℕ, length, All, map, nat_eq};
ghost use Rattle.std.specs.Prelude.{◌++◌, ◌∷◌, [], Some, OnOk, OnErr, vec_len, vec_capacity};
ghost use Rattle.std.specs.HashMap.{get, spare, Updates, IsUnchanged};
ghost use Rattle.sector_disk.specs.CallCount.{calls_made, calls_failed};
ghost use Rattle.sector_disk.specs.Disk.{IsWhole, sector};
ghost use Rattle.byte_disk.specs.Plan.{carried_out, writes_in, IsWriteOn};
ghost use Rattle.byte_disk.specs.inside.Latest.{content_by, plan_in};

use crate::given::sectors_of;
use crate::planned::PlannedStep;
use crate::step::Step;
use sector_disk::{CallCount, Disk, DiskFault, SECTOR_BYTES};
use std::alloc::{AllocError, Global};
use std::collections::HashMap;
use std::mem::replace;

/// An honest disk over sectors that its caller gives. It stores its writes and syncs as the steps
/// of a plan, in the order of the calls. It allocates memory only for the steps, so that reads
/// allocate none. A read, a write and a sync take constant time.
#[derive(Drop)]
pub struct ByteDisk<'a> {
    start: &'a [[u8; SECTOR_BYTES]],
    planned: Vec<PlannedStep>,
    // For each sector that was written, the position of the step that last wrote it.
    latest: HashMap<u32, usize>,
    // The calls since the last step, none of which made a step.
    idle: CallCount,
    ghost few: { length start.now < 2 ^ 32 },
    ghost whole: { All IsWhole start.now },
    ghost writes: { All (IsWriteOn (length start.now)) (writes_in (plan_in planned.items)) },
    ghost is_latest: { (k : ℕ) → k < length start.now
        → content_by start.now (plan_in planned.items) k (get nat_eq latest k)
        ≡ sector (carried_out start.now (plan_in planned.items)) k },
}

impl<'a> ByteDisk<'a> {
    ghost use Rattle.std.specs.Prelude.{◌↔◌, IsSome, IfSome};
    ghost use Rattle.sector_disk.specs.Disk.{StartsWith};
    ghost use Rattle.byte_disk.specs.Bytes.{IsDiskLength, sectors_in};
    ghost use Rattle.byte_disk.specs.ByteDisk.{byte_facts, plan_of, given_to, IsPlanOf};

    /// Makes a disk over `bytes`, if they are whole sectors and fewer than 2^32 sectors. Allocates
    /// no memory.
    pub fn over(alloc: Global, bytes: &'a [u8]) -> Option<ByteDisk<'a>>
        ensures some { IsSome result ↔ IsDiskLength (length bytes.now) }
        ensures starts { IfSome result (λ disk.
            StartsWith (byte_facts disk) (sectors_in bytes.now)) }
        ensures given { IfSome result (λ disk. given_to disk ≡ sectors_in bytes.now) }
        ensures unplanned { IfSome result (λ disk. plan_of disk ≡ []) }
    {
        let Some(start) = sectors_of(bytes) else {
            return None;
        };
        Some(ByteDisk {
            start,
            planned: Vec::new(alloc),
            latest: HashMap::new(alloc),
            idle: CallCount::new(),
        })
    }

    /// Returns the steps of the plan, in their order.
    pub fn plan(&self) -> &[PlannedStep]
        ensures steps { map (λ planned. planned.step) result.now ≡ plan_of self.now }
        ensures plan { IsPlanOf self.now }

        // Carrying out the steps turns the given sectors into the contents that reads return.
        ensures now { (byte_facts self.now).now
            ≡ carried_out (given_to self.now) (plan_of self.now) }
    {
        &self.planned
    }

    /// Returns the content that was last written to sector `at`, or the given content if there is
    /// none.
    fn latest(&self, at: u32) -> &[u8; SECTOR_BYTES]
        requires { at < (byte_facts self.now).sectors }
        ensures { result.now ≡ sector (byte_facts self.now).now at }
    {
        match self.latest.get(&at) {
            Some(place) => match &self.planned[*place].step {
                Step::Write { at: _, content } => content,
                Step::Sync => unreachable!(),
            },
            None => &self.start[at as usize],
        }
    }
}

/// Allocates the memory for one more step. Also stores the position of that step as the place of
/// the latest content of sector `at`.
fn make_room(
    planned: &mut Vec<PlannedStep>,
    latest: &mut HashMap<u32, usize>,
    at: u32,
) -> Result<(), AllocError>
    ensures same { planned.new.items ≡ planned.old.items }
    ensures room { OnOk result (vec_len planned.new < vec_capacity planned.new) }
    ensures ok { OnOk result (Updates nat_eq latest.old latest.new at
        (Some (length planned.old.items))) }
    ensures err { OnErr result (IsUnchanged latest.old latest.new) }
    ensures full { OnErr result ((vec_capacity planned.old ≤ vec_len planned.old)
        ⊎ (spare latest.old ≡ 0)) }
{
    planned.reserve(1)?;
    latest.insert(at, planned.len())?;
    Ok(())
}

/// Adds the step `step`, for which memory has already been reserved. The call of the disk that
/// makes the step succeeds.
fn make_step(planned: &mut Vec<PlannedStep>, idle: &mut CallCount, step: Step)
    requires room { vec_len planned.old < vec_capacity planned.old }
    ensures made { planned.new.items
        ≡ planned.old.items ++ (record { step = step; idle = idle.old }) ∷ [] }
    ensures no_calls { calls_made idle.new ≡ 0 }
    ensures no_failures { calls_failed idle.new ≡ 0 }
{
    let idle = replace(idle, CallCount::new());
    planned.push(PlannedStep { step, idle }).unwrap();
}

impl<'a> Disk for ByteDisk<'a> {
    ghost use Rattle.std.specs.Prelude.{IsTrue, IsOk};
    ghost use Rattle.sector_disk.specs.Disk.{IsCall, IsRead, IsWrite, IsSync};
    ghost use Rattle.sector_disk.specs.Disk.{IsUnchanged as LeavesAll};
    ghost use Rattle.byte_disk.specs.ByteDisk.{byte_facts, plan_of};
    ghost use Rattle.byte_disk.specs.ByteDisk.{HasFullPlan, HasFullIndex};
    ghost use Rattle.byte_disk.specs.inside.Laws.{byte_holds, byte_whole};

    ghost facts = { byte_facts };

    ghost holds_now = { λ disk honest. byte_holds disk };

    ghost whole_sectors = { λ disk honest. byte_whole disk };

    fn sectors(&self) -> u32 {
        self.start.len() as u32
    }

    /// Never fails.
    fn read(&mut self, at: u32, into: &mut [u8; SECTOR_BYTES]) -> Result<(), DiskFault>
        requires { at < (byte_facts self.old).sectors }
        ensures calls { IsCall (byte_facts self.old) (byte_facts self.new) result }
        ensures honest { IsTrue (byte_facts self.old).honest
            → IsRead (byte_facts self.old) (byte_facts self.new) at into.new result }
        ensures ok { IsOk result }
        ensures same { plan_of self.new ≡ plan_of self.old }
    {
        *into = *self.latest(at);
        let reply = Ok(());
        self.idle.end_call(&reply);
        reply
    }

    /// Fails only if memory is refused, and in this case adds no step.
    fn write(&mut self, at: u32, from: &[u8; SECTOR_BYTES]) -> Result<(), DiskFault>
        requires { at < (byte_facts self.old).sectors }
        ensures calls { IsCall (byte_facts self.old) (byte_facts self.new) result }
        ensures honest { IsTrue (byte_facts self.old).honest
            → IsWrite (byte_facts self.old) (byte_facts self.new) at from.now result }
        ensures ok { OnOk result
            (plan_of self.new ≡ plan_of self.old ++ (Step.Write at from.now) ∷ []) }
        ensures same { OnErr result (plan_of self.new ≡ plan_of self.old) }
        ensures err { OnErr result (LeavesAll (byte_facts self.old) (byte_facts self.new)) }
        ensures full { OnErr result (HasFullPlan self.old ⊎ HasFullIndex self.old) }
    {
        match make_room(&mut self.planned, &mut self.latest, at) {
            Ok(()) => {
                let step = Step::Write { at, content: *from };
                make_step(&mut self.planned, &mut self.idle, step);
                Ok(())
            }
            Err(_) => {
                let reply = Err(DiskFault::Failed);
                self.idle.end_call(&reply);
                reply
            }
        }
    }

    /// Fails only if memory is refused, and in this case adds no step.
    fn sync(&mut self) -> Result<(), DiskFault>
        ensures calls { IsCall (byte_facts self.old) (byte_facts self.new) result }
        ensures honest { IsTrue (byte_facts self.old).honest
            → IsSync (byte_facts self.old) (byte_facts self.new) result }
        ensures ok { OnOk result (plan_of self.new ≡ plan_of self.old ++ Step.Sync ∷ []) }
        ensures same { OnErr result (plan_of self.new ≡ plan_of self.old) }
        ensures full { OnErr result (HasFullPlan self.old) }
    {
        match self.planned.reserve(1) {
            Ok(()) => {
                make_step(&mut self.planned, &mut self.idle, Step::Sync);
                Ok(())
            }
            Err(_) => {
                let reply = Err(DiskFault::Failed);
                self.idle.end_call(&reply);
                reply
            }
        }
    }
}
