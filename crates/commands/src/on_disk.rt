// Carries out the commands of a registry on a disk.

ghost use Rattle.std.specs.Prelude.{◌≡◌, map, string_bytes, IfOk};
ghost use Rattle.requests.specs.Request.{request_of};
ghost use Rattle.program_parts.specs.Base.{base_of};
ghost use Rattle.commands.specs.Outcome.{Asks};
ghost use Rattle.commands.specs.Words as words;
ghost use Rattle.commands.specs.Said.{base_text};
ghost use Rattle.commands.specs.inside.Ends.{BindEnds, IsFormatted, IsUpgradedOver};
ghost use Rattle.commands.specs.inside.Ends.{Replied, IsSaid};

use crate::access::access_of;
use crate::disk::{make_registry, no_disk, turn_away};
use crate::disk_answer::write_disk_answer;
use crate::making::run_upgrade;
use crate::message::bad_base;
use crate::request::run_request;
use crate::unread::no_memory;
use crate::with_file::{WithFile, ask_with};
use file_disk::{Access, FileDisk};
use program_parts::{Status, parse_base};
use requests::Command;
use std::alloc::{AllocError, Global};
use std::fs::File;
use std::io::Write;
use std::rt::{Clock, Files};

/// Applies a command to the registry on a disk, and writes the reply.
#[tactic(auto, using(crate::proofs::Asking::away_replied))]
pub(crate) fn ask<R: Files<File = File> + Clock, O: Write, E: Write>(
    rt: &R,
    alloc: Global,
    disk: &str,
    command: &Command<'_>,
    output: &mut O,
    errors: &mut E,
) -> Status
    ensures ends { Replied (λ asked. asked ≡ request_of command.now)
        (O.contents output.old) (O.contents output.new) result }
    ensures said { IsSaid base_text (O.contents output.old) (O.contents output.new)
        (E.contents errors.old) (E.contents errors.new) result }
{
    match FileDisk::open(rt, alloc, disk, access_of(command)) {
        Ok(opened) => {
            let (status, opened) = run_request(alloc, opened, command, output);
            drop(opened);
            status
        }
        Err(fault) => turn_away(no_disk(fault), disk, output, errors),
    }
}

/// Carries out `format DISK SECTORS`.
#[tactic(auto, using(crate::proofs::Asking::away_formatted))]
pub(crate) fn format<R: Files<File = File> + Clock, O: Write, E: Write>(
    rt: &R,
    alloc: Global,
    disk: &str,
    sectors: u32,
    output: &mut O,
    errors: &mut E,
) -> Status
    ensures ends { IsFormatted sectors (O.contents output.old) (O.contents output.new)
        result }
    ensures said { IsSaid base_text (O.contents output.old) (O.contents output.new)
        (E.contents errors.old) (E.contents errors.new) result }
{
    match make_registry(rt, alloc, disk, sectors) {
        Ok(()) => write_disk_answer(Ok(()), output),
        Err(why) => turn_away(why, disk, output, errors),
    }
}

/// Carries out `upgrade DISK`.
#[tactic(auto, using(crate::proofs::Asking::away_upgraded))]
pub(crate) fn upgrade<R: Files<File = File> + Clock, O: Write, E: Write>(
    rt: &R,
    alloc: Global,
    disk: &str,
    output: &mut O,
    errors: &mut E,
) -> Status
    ensures ends { IsUpgradedOver (O.contents output.old) (O.contents output.new) result }
    ensures said { IsSaid base_text (O.contents output.old) (O.contents output.new)
        (E.contents errors.old) (E.contents errors.new) result }
{
    match FileDisk::open(rt, alloc, disk, Access::Changes) {
        Ok(opened) => {
            let (status, opened) = run_upgrade(alloc, opened, output);
            drop(opened);
            status
        }
        Err(fault) => turn_away(no_disk(fault), disk, output, errors),
    }
}

/// Returns the names as bytes.
fn bytes_of(alloc: Global, names: &[String]) -> Result<Vec<&[u8]>, AllocError>
    ensures { IfOk result (λ list. map (λ name. name.now) list.items
        ≡ map (λ name. string_bytes name) names.now) }
{
    names.iter().map(|name| name.as_bytes()).collect(alloc)
}

/// Carries out `preload DISK [NAME]..`.
#[tactic(auto, using(crate::proofs::Asking::memory_replied))]
pub(crate) fn preload<R: Files<File = File> + Clock, O: Write, E: Write>(
    rt: &R,
    alloc: Global,
    disk: &str,
    names: &[String],
    output: &mut O,
    errors: &mut E,
) -> Status
    ensures ends { Replied
        (Asks (words.preload disk.now (map (λ name. string_bytes name) names.now)))
        (O.contents output.old) (O.contents output.new) result }
    ensures said { IsSaid base_text (O.contents output.old) (O.contents output.new)
        (E.contents errors.old) (E.contents errors.new) result }
{
    match bytes_of(alloc, names) {
        Ok(names) => ask(
            rt,
            alloc,
            disk,
            &Command::SetPreloads(&names),
            output,
            errors,
        ),
        Err(_) => no_memory(output),
    }
}

/// Carries out `bind DISK PROGRAM BASE`. Reads BASE before it opens any file, and the program
/// before it opens the disk.
#[tactic(auto, using(crate::proofs::Asking::bind_ends))]
pub(crate) fn bind<R: Files<File = File> + Clock, O: Write, E: Write>(
    rt: &R,
    alloc: Global,
    disk: &str,
    program: &str,
    base: &str,
    output: &mut O,
    errors: &mut E,
) -> Status
    ensures ends { BindEnds (base_of base.now)
        (Asks (words.bind disk.now program.now base.now))
        (O.contents output.old) (O.contents output.new) result }
    ensures said { IsSaid base_text (O.contents output.old) (O.contents output.new)
        (E.contents errors.old) (E.contents errors.new) result }
{
    match parse_base(base) {
        Some(base) => {
            let asking = WithFile::Bind { base };
            ask_with(rt, alloc, disk, asking, program, output, errors)
        }
        None => bad_base(errors),
    }
}
