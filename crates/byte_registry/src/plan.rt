// The plan of a call: a sync, and then the steps that its disk stored.
ghost use Rattle.std.specs.Prelude.{◌≡◌, map};
ghost use Rattle.byte_disk.specs.ByteDisk.{plan_of};
ghost use Rattle.byte_registry.specs.Plans.{behind_sync};

use byte_disk::{ByteDisk, PlannedStep, Step};

/// Returns the steps of a disk's plan without the sync at its beginning, or all steps if the plan
/// doesn't begin with a sync.
pub fn behind_sync<'d>(disk: &'d ByteDisk<'_>) -> &'d [PlannedStep]
    ensures { map (λ planned. planned.step) result.now ≡ behind_sync (plan_of disk.now) }
{
    let steps = disk.plan();
    match steps.split_first() {
        Some((first, rest)) => match &first.step {
            Step::Sync => rest,
            Step::Write { at: _, content: _ } => steps,
        },
        None => steps,
    }
}
