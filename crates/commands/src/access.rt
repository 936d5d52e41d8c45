// The access to the disk that a command needs.

ghost use Rattle.std.specs.Prelude.{◌≡◌};
ghost use Rattle.requests.specs.Request.{request_of};
ghost use Rattle.commands.specs.inside.Access.{access_of};

use file_disk::Access;
use requests::Command;

/// Returns the access that a command needs. A listing and a bind only read. Every other command may
/// change the disk.
pub(crate) fn access_of(command: &Command<'_>) -> Access
    ensures { result ≡ access_of (request_of command.now) }
{
    match command {
        Command::List | Command::Bind { .. } => Access::Reading,
        _ => Access::Changes,
    }
}
