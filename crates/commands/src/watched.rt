// A registry with binders, and the greatest status of its replies.

ghost use Rattle.std.specs.Prelude.{◌≢◌};
ghost use Rattle.program_parts.specs.declared.status.Status.TheVariants.{BadWords};

use program_parts::Status;

/// A registry with binders, and the greatest of the statuses of its replies.
#[derive(Drop)]
pub(crate) struct Watched<G> {
    pub(crate) binders: G,
    pub(crate) worst: Status,
    // No reply has the status for bad arguments.
    ghost answers: { worst ≢ BadWords },
}
