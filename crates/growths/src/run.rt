// Makes a registry, applies each command to this registry, and then runs the other parts that
// allocate.

use crate::asked::{Asked, OnMemory, ask};
use crate::counted::{calls, calls_word, counted};
use crate::every_line::script;
use crate::format::{format, refusal_word};
use crate::rounds::rounds;
use crate::seen::{before, is_as_before};
use crate::steps::{STEPS, Step};
use crate::texts::text;
use crate::words::Words;
use registry::Registry;
use sector_disk::{Fuse, Memory};
use std::alloc::{AllocError, Global};
use store::StoreRefusal;

/// The result of a part: the disk after it, or a report if an answer isn't the expected one.
#[derive(Drop)]
pub(crate) enum Went {
    On(Memory),
    Otherwise(Words),
}

/// Opens the registry on a disk.
pub(crate) fn opened(alloc: Global, disk: Memory) -> Result<OnMemory, AllocError> {
    match Registry::open(alloc, counted(disk)) {
        Ok(registry) => Ok(registry),
        Err(_) => Err(AllocError),
    }
}

// Returns the number of calls of the disk that an opening makes before command number `at`.
fn opening_calls(alloc: Global, at: usize) -> Result<u64, AllocError> {
    let mut disk = opened(alloc, before(alloc, at)?)?.into_disk();
    Ok(calls(&mut disk))
}

// Opens the registry on a disk, applies command number `at` to it, and returns the answer.
fn again(alloc: Global, disk: Memory, at: usize) -> Result<&'static str, AllocError> {
    let mut registry = opened(alloc, disk)?;
    let asked = match STEPS.get(at) {
        Some((_, asked, _)) => *asked,
        None => Asked::List,
    };
    let answer = ask(&mut registry, asked);
    let _ = registry.into_disk();
    Ok(answer)
}

// Adds three facts to the report about a refused command or opening: the number of calls of the
// disk after the first `opened_calls`, whether the registry is unchanged, and the answer to the
// same command when it is applied again.
fn tell(
    alloc: Global,
    words: Words,
    at: usize,
    disk: Fuse<Memory>,
    opened_calls: u64,
) -> Result<Words, AllocError> {
    let mut words = words;
    let mut disk = disk;
    let made = calls(&mut disk).saturating_sub(opened_calls);
    let disk = disk.into_inner();
    words.push(calls_word(made));
    words.push(is_as_before(alloc, disk.copy()?, at)?);
    words.push("again:");
    words.push(again(alloc, disk, at)?);
    Ok(words)
}

// Returns the report about an unexpected answer. After S1, also applies the same command again
// immediately.
fn otherwise(
    alloc: Global,
    registry: OnMemory,
    step: Step,
    at: usize,
    answer: &'static str,
) -> Result<Words, AllocError> {
    let (name, asked, _) = step;
    let mut registry = registry;
    let mut words = Words::of(name);
    words.push(answer);
    if answer == "S1" {
        words.push("then");
        words.push(ask(&mut registry, asked));
    }
    let disk = registry.into_disk();
    tell(alloc, words, at, disk, opening_calls(alloc, at)?)
}

// Returns the report about an opening that was refused.
fn not_opened(
    alloc: Global,
    refusal: StoreRefusal,
    disk: Fuse<Memory>,
    step: Step,
    at: usize,
) -> Result<Words, AllocError> {
    let mut words = Words::of("open before");
    words.push(step.0);
    words.push(refusal_word(refusal));
    tell(alloc, words, at, disk, 0)
}

// Opens a copy of the disk, and applies command number `at` to its registry. The next write to a
// copy has to allocate.
fn go(alloc: Global, disk: &Memory, step: Step, at: usize) -> Result<Went, AllocError> {
    match Registry::open(alloc, counted(disk.copy()?)) {
        Ok(mut registry) => {
            let (_, asked, wanted) = step;
            let answer = ask(&mut registry, asked);
            if answer == wanted {
                return Ok(Went::On(registry.into_disk().into_inner()));
            }
            Ok(Went::Otherwise(otherwise(alloc, registry, step, at, answer)?))
        }
        Err((refusal, disk)) => Ok(Went::Otherwise(not_opened(alloc, refusal, disk, step, at)?)),
    }
}

// Applies each command of `STEPS` to the registry on the disk.
fn steps(alloc: Global, disk: Memory) -> Result<Went, AllocError> {
    let mut disk = disk;
    for (at, step) in STEPS.iter().enumerate() {
        match go(alloc, &disk, *step, at)? {
            Went::On(next) => disk = next,
            Went::Otherwise(words) => return Ok(Went::Otherwise(words)),
        }
    }
    Ok(Went::On(disk))
}

// Runs the parts that come after the commands.
fn besides(alloc: Global, disk: Memory) -> Result<Option<Words>, AllocError> {
    if let Some(words) = text(alloc, disk.copy()?)? {
        return Ok(Some(words));
    }
    if let Some(words) = script(alloc, disk.copy()?)? {
        return Ok(Some(words));
    }
    rounds(alloc, disk)
}

/// Runs everything. Returns a report about the first unexpected answer, if there is one. `Err`
/// means that a growth of this program itself was refused.
pub(crate) fn run(alloc: Global) -> Result<Option<Words>, AllocError> {
    let disk = match format(alloc)? {
        Went::On(disk) => disk,
        Went::Otherwise(words) => return Ok(Some(words)),
    };
    match steps(alloc, disk)? {
        Went::On(disk) => besides(alloc, disk),
        Went::Otherwise(words) => Ok(Some(words)),
    }
}
