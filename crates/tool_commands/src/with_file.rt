// Requests that need the bytes of a file.

ghost use Rattle.std.specs.Prelude.{◌≡◌};
ghost use Rattle.requests.specs.Request.{request_of};
ghost use Rattle.tool_commands.specs.inside.WithFile.{access_of, request_with};
ghost use Rattle.tool_commands.specs.inside.WithFile.{telling_of};

use crate::telling::Telling;
use file_disk::Access;
use requests::Command;

/// A request to a registry that needs the bytes of a file.
#[derive(Clone, Copy)]
pub(crate) enum WithFile {
    /// Replaces the library that has the same name as the file by the file.
    Replace,
    /// Binds the program in the file, and writes its executable file.
    Executable {
        /// The address at which the program is bound.
        base: u64,
    },
}

impl WithFile {
    /// Returns this request as a command, with `bytes` as the file's bytes.
    pub(crate) fn command(self, bytes: &[u8]) -> Command<'_>
        ensures { request_of result ≡ request_with self bytes.now }
    {
        match self {
            WithFile::Replace => Command::Replace(bytes),
            WithFile::Executable { base } => Command::Bind {
                program: bytes,
                base,
            },
        }
    }

    /// Returns the access with which the disk is opened.
    pub(crate) fn access(self) -> Access
        ensures { result ≡ access_of self }
    {
        match self {
            WithFile::Replace => Access::Changes,
            WithFile::Executable { .. } => Access::Reading,
        }
    }

    /// Returns the way in which the reply is written.
    pub(crate) fn telling(self) -> Telling
        ensures { result ≡ telling_of self }
    {
        match self {
            WithFile::Replace => Telling::Text,
            WithFile::Executable { .. } => Telling::Executable,
        }
    }
}
