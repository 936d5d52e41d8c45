// Commits the draft of an update.

ghost use Rattle.updates.specs.Commit.{Commits};
ghost use Rattle.updates.specs.inside.Committed.{commit_result};

use registry::{Registry, Update};
use requests::Refusal;
use sector_disk::Disk;

/// A value that proves that a commit has succeeded. Only `commit_draft` makes this value, and
/// `report_commit` needs it to write `ok`. Therefore `ok` is written only after the commit.
#[derive(Drop)]
pub(crate) struct Committed {
    // Private to this module, so that no other function can make a `Committed`.
    made: (),
}

/// Commits the draft of an update. The function doesn't get an output stream, so no answer can be
/// written before the commit has ended.
pub(crate) fn commit_draft<D: Disk>(update: Update<D>) -> (Result<Committed, Refusal>, Registry<D>)
    ensures { Commits D.facts update (commit_result result.0) result.1 }
{
    let (answer, registry) = update.commit();
    match answer {
        Ok(made) => (Ok(Committed { made }), registry),
        Err(refusal) => (Err(refusal), registry),
    }
}
