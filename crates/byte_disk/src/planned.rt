// A step of a plan, as a disk stores it.

use crate::step::Step;
use sector_disk::CallCount;

/// A step of a plan. For clauses only, it also counts the calls between the previous step and this
/// one, none of which made a step.
#[derive(Drop)]
pub struct PlannedStep {
    /// The step.
    pub step: Step,
    pub(crate) idle: CallCount,
}
