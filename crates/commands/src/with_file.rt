// Carries out commands that need the bytes of a file.

ghost use Rattle.std.specs.Prelude.{◌≡◌};
ghost use Rattle.requests.specs.Request.{request_of};
ghost use Rattle.commands.specs.Said.{base_text};
ghost use Rattle.commands.specs.inside.Ends.{IsSaid, Replied};
ghost use Rattle.commands.specs.inside.WithFile.{AsksWith, request_with};

use crate::on_disk::ask;
use crate::unread::not_read;
use program_parts::{Status, read_file};
use requests::Command;
use std::alloc::Global;
use std::fs::File;
use std::io::Write;
use std::rt::{Clock, Files};

/// A command of a registry, without the bytes of its file.
#[derive(Clone, Copy)]
pub(crate) enum WithFile {
    /// Installs a library.
    Install,
    /// Replaces the library that has the same name as the file.
    Replace,
    /// Binds a program.
    Bind {
        /// The address at which the program is bound.
        base: u64,
    },
}

impl WithFile {
    /// Returns the command with the file `bytes`.
    fn command(self, bytes: &[u8]) -> Command<'_>
        ensures { request_of result ≡ request_with self bytes.now }
    {
        match self {
            WithFile::Install => Command::Install(bytes),
            WithFile::Replace => Command::Replace(bytes),
            WithFile::Bind { base } => Command::Bind {
                program: bytes,
                base,
            },
        }
    }
}

/// Reads a file, then opens the disk and applies the command with the file's bytes.
#[tactic(auto, using(crate::proofs::Asking::unread_replied))]
pub(crate) fn ask_with<R: Files<File = File> + Clock, O: Write, E: Write>(
    rt: &R,
    alloc: Global,
    disk: &str,
    asking: WithFile,
    file: &str,
    output: &mut O,
    errors: &mut E,
) -> Status
    ensures ends { Replied (AsksWith asking)
        (O.contents output.old) (O.contents output.new) result }
    ensures said { IsSaid base_text (O.contents output.old) (O.contents output.new)
        (E.contents errors.old) (E.contents errors.new) result }
{
    match read_file(rt, alloc, file) {
        Ok(bytes) => ask(rt, alloc, disk, &asking.command(&bytes), output, errors),
        Err(fault) => not_read(fault, file, output, errors),
    }
}
