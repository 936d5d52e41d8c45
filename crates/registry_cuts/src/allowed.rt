// Computes the states that a disk may have after the answers to a task.

use crate::answer::{DEVICE, DONE, REOPEN};
use crate::run::Told;
use crate::task::{Asked, Task};
use store::StoreRefusal;

/// The numbers of the first and the last state that a disk may have, and whether the answers so far
/// are right.
#[derive(Clone, Copy)]
pub(crate) struct Allowed {
    pub(crate) least: usize,
    pub(crate) most: usize,
    pub(crate) right: bool,
}

impl Allowed {
    // Records that a change was acknowledged. This is wrong if an earlier change failed.
    fn acknowledge(&mut self) {
        self.right = self.right && self.least == self.most;
        self.least = self.least.saturating_add(1);
        self.most = self.least;
    }

    // Records an answer that isn't the expected one. If a change failed because of the disk, the
    // disk may have the change or not.
    fn refuse(&mut self, answer: &[u8], is_change: bool) {
        self.right = self.right && (answer == DEVICE || answer == REOPEN);
        if is_change && answer == DEVICE {
            self.most = self.least.saturating_add(1);
        }
    }

    /// Returns the states that a disk may have after the answers `told` to a task.
    pub(crate) fn by(task: &Task, told: &Told) -> Allowed {
        let mut allowed = Allowed {
            least: 0,
            most: 0,
            right: true,
        };
        let answers = match told {
            Ok(answers) => answers,
            Err(refusal) => {
                allowed.right = *refusal == StoreRefusal::Device;
                return allowed;
            }
        };
        let count = task.wanted.len();
        allowed.right = answers.len() == count;
        for (number, (answer, wanted)) in answers.iter().zip(&task.wanted).enumerate() {
            let is_commit = number.saturating_add(1) == count;
            let is_counted = task.asked == Asked::Commands || is_commit;
            let is_change = is_counted && wanted.as_slice() == DONE;
            if answer != wanted {
                allowed.refuse(answer, is_change);
            } else if is_change {
                allowed.acknowledge();
            }
        }
        allowed
    }
}
