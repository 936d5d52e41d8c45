// Encodes a plan as bytes.
ghost use Rattle.std.specs.Prelude.{◌≡◌, ◌+◌, ◌-◌, ◌<◌, ◌≤◌, ◌^◌, ◌++◌, ◌∷◌};
ghost use Rattle.std.specs.Prelude.{length, map, min, take};
ghost use Rattle.std.specs.Prelude.{IfSome, IfNone};
ghost use Rattle.byte_disk.specs.declared.step.Step.TheVariants.{Sync};
ghost use Rattle.byte_registry.specs.Plans.{synced_plan};
ghost use Rattle.c_answers.specs.Answers.{IsPlanned, IsLeft};
ghost use Rattle.c_answers.specs.Spelling.{step_bytes, plan_bytes};

use crate::answer::Answer;
use crate::put::put;
use crate::status::NO_ROOM;
use crate::text::tell;
use byte_disk::{ByteDisk, PlannedStep, Step};
use byte_registry::behind_sync;
use requests::Reply;
use std::alloc::Global;

/// The number that encodes a sync.
const SYNC: u32 = u32::MAX;

/// Returns the number of bytes that encode a step: 4 for the number and, for a write, the bytes of
/// the sector.
fn step_bytes(step: &Step) -> u64
    ensures { result ≡ min (length (step_bytes step.now)) (2 ^ 64 - 1) }
{
    match step {
        Step::Write { at: _, content } => length_of(content).saturating_add(4),
        Step::Sync => 4,
    }
}

/// Returns the length of `bytes` as a `u64`.
fn length_of(bytes: &[u8]) -> u64
    ensures { result ≡ length bytes.now }
{
    bytes.len() as u64
}

/// Returns the number of bytes that encode a plan, which is a sync followed by `steps`, or 2^64 - 1
/// if the number is greater.
fn plan_bytes(steps: &[PlannedStep]) -> u64
    ensures { result
        ≡ min (length (plan_bytes (Sync ∷ map (λ p. p.step) steps.now))) (2 ^ 64 - 1) }
{
    let mut bytes = step_bytes(&Step::Sync);
    for planned in steps {
        bytes = bytes.saturating_add(step_bytes(&planned.step));
    }
    bytes
}

/// Encodes a step in the buffer `plan` at offset `at`. Returns the offset after the step, or `None`
/// if the buffer is too small.
fn put_step(step: &Step, at: usize, plan: &mut [u8]) -> Option<usize>
    ensures end { IfSome result (λ end. end ≡ at + length (step_bytes step.now)) }
    ensures front { IfSome result (λ end. take end plan.new
        ≡ take at plan.old ++ step_bytes step.now) }
    ensures size { length plan.new ≡ length plan.old }
    ensures small { IfNone result (length plan.old < at + length (step_bytes step.now)) }
{
    match step {
        Step::Write {
            at: sector,
            content,
        } => {
            let at = put(plan, at, &sector.to_le_bytes())?;
            put(plan, at, content)
        }
        Step::Sync => put(plan, at, &SYNC.to_le_bytes()),
    }
}

/// Encodes a plan, which is a sync followed by `steps`, in the buffer `plan`. Returns the number of
/// bytes, or `None` if the buffer is too small.
fn put_steps(steps: &[PlannedStep], plan: &mut [u8]) -> Option<usize>
    ensures end { IfSome result (λ end.
        end ≡ length (plan_bytes (Sync ∷ map (λ p. p.step) steps.now))) }
    ensures spelled { IfSome result (λ end. take end plan.new
        ≡ plan_bytes (Sync ∷ map (λ p. p.step) steps.now)) }
    ensures small { IfNone result (length plan.old
        < length (plan_bytes (Sync ∷ map (λ p. p.step) steps.now))) }
{
    let mut at = put_step(&Step::Sync, 0, plan)?;
    for planned in steps {
        at = put_step(&planned.step, at, plan)?;
    }
    Some(at)
}

/// Puts the plan of an accepted change into the buffer `plan`, and reports the reply Done. If the
/// buffer is too small, returns the size that is needed.
pub(crate) fn put_done(
    alloc: Global,
    disk: &ByteDisk<'_>,
    plan: &mut [u8],
    text: &mut [u8],
) -> Answer
    ensures planned { IsPlanned (synced_plan disk.now) plan.new text.new result result.status }
    ensures left { IsLeft plan.old plan.new result.status }
{
    let steps = behind_sync(disk);
    let count = steps.len() as u64 + 1;
    match put_steps(steps, plan) {
        Some(end) => Answer {
            count,
            bytes: end as u64,
            ..tell(alloc, &Reply::Done, text)
        },
        None => Answer {
            count,
            bytes: plan_bytes(steps),
            ..Answer::of(NO_ROOM)
        },
    }
}
