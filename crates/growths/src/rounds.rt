// Runs rounds of commands, with a stop after each round.

use crate::asked::{Asked, BASE, ask, word};
use crate::format::refusal_word;
use crate::run::opened;
use crate::words::Words;
use registry::{Round, RoundReplies, run_rounds};
use requests::Command;
use samples::{library, program};
use sector_disk::Memory;
use std::alloc::{AllocError, Global};

// Makes a round of two commands, whose call number `cut` is cut. At the stop each sector keeps its
// last content.
fn round<'a>(alloc: Global, commands: [Command<'a>; 2], cut: u64) -> Result<Round<'a>, AllocError> {
    Ok(Round {
        commands: Vec::from_slice(alloc, &commands)?,
        cut,
        late: false,
        picks: Vec::from_slice(alloc, &[1])?,
    })
}

// Returns the three rounds. `file` is the file of a library, and `name` is its name.
fn all_rounds<'a>(
    alloc: Global,
    file: &'a [u8],
    name: &'a [u8],
    program: &'a [u8],
) -> Result<Vec<Round<'a>>, AllocError> {
    let bind = Command::Bind {
        program,
        base: BASE,
    };
    let mut all = Vec::new(alloc);
    all.push(round(alloc, [Command::Install(file), Command::List], 1000)?)?;
    all.push(round(alloc, [Command::Remove(name), Command::List], 14)?)?;
    all.push(round(alloc, [Command::List, bind], 1000)?)?;
    Ok(all)
}

// Adds words for the replies of the rounds: a word for each reply, or the refusal if a round wasn't
// run.
fn tell(words: &mut Vec<&'static str>, all: &[RoundReplies]) -> Result<(), AllocError> {
    for told in all {
        match told {
            RoundReplies::Ran(replies) => {
                for reply in replies {
                    words.push(word(reply))?;
                }
            }
            RoundReplies::NotRun(refusal) => {
                words.push("not run")?;
                words.push(refusal_word(*refusal))?;
            }
        }
        words.push("|")?;
    }
    Ok(())
}

// The words for the replies if no growth is refused.
const TOLD: &str = "ok, list a b c preload b, |, S1, S2, |, list a b preload b, image, |";

// Returns the listing of the registry on a disk, in words.
fn left(alloc: Global, disk: Memory) -> Result<&'static str, AllocError> {
    let mut registry = opened(alloc, disk)?;
    let list = ask(&mut registry, Asked::List);
    let _ = registry.into_disk();
    Ok(list)
}

// Returns whether these are the words of a run in which no growth is refused.
fn is_whole(words: &[&'static str]) -> bool {
    let mut wanted = TOLD.split(", ");
    let mut same = true;
    for told in words {
        same = same && wanted.next() == Some(*told);
    }
    same && wanted.next().is_none()
}

// Returns the report about rounds with unexpected words.
fn otherwise(
    alloc: Global,
    title: &'static str,
    words: &[&'static str],
    disk: Memory,
) -> Result<Words, AllocError> {
    let mut said = Words::of(title);
    for word in words {
        said.push(word);
    }
    said.push("at the end");
    said.push(left(alloc, disk)?);
    Ok(said)
}

/// Runs three rounds. The first round installs a library, and lists. The second removes the
/// library; the last sync of this round fails, but the stop keeps the new content of the root. The
/// third shows the state with a listing and a bind.
pub(crate) fn rounds(alloc: Global, disk: Memory) -> Result<Option<Words>, AllocError> {
    let file = library(b'c', 0);
    let needing = program(b'a');
    let all = all_rounds(alloc, &file, b"c", &needing)?;
    let mut words = Vec::with_capacity(alloc, 32)?;
    match run_rounds(alloc, disk, all) {
        Ok((replies, disk)) => {
            tell(&mut words, &replies)?;
            if is_whole(&words) {
                return Ok(None);
            }
            Ok(Some(otherwise(alloc, "rounds:", &words, disk)?))
        }
        Err((_, disk)) => Ok(Some(otherwise(alloc, "rounds: none", &words, disk)?)),
    }
}
