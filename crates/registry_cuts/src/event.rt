// Events, and the words that describe them in a row.

use anyhow::{Context, Result, bail};
use requests::Command;
use samples::{padded, program};
use std::alloc::Global;
use std::rc::Rc;

// The base of every program.
const BASE: u64 = 0x10000;

/// The kind of an event of a registry with binders. `Begin` begins the binder of a program,
/// `Advance` makes the next step of the binder in a slot, and `Cancel` ends this binder.
#[derive(Clone, Copy, PartialEq, Eq)]
pub(crate) enum What {
    Install,
    Replace,
    Remove,
    Choose,
    Bind,
    List,
    Begin,
    Advance,
    Cancel,
}

// The names of preloads.
const LETTERS: &[u8] = b"abcdefghijklmnopqrstuvwxyz";

// The word for each kind of event in a row.
const WORDS: [(&str, What); 9] = [
    ("install", What::Install),
    ("replace", What::Replace),
    ("remove", What::Remove),
    ("preloads", What::Choose),
    ("bind", What::Bind),
    ("list", What::List),
    ("begin", What::Begin),
    ("advance", What::Advance),
    ("cancel", What::Cancel),
];

/// An event with its bytes. A library's name has one letter.
#[derive(Drop)]
pub(crate) struct Event {
    pub(crate) what: What,
    /// The letter of the library that is installed, replaced, removed or needed.
    pub(crate) name: u8,
    /// The number of the binder's slot.
    pub(crate) slot: usize,
    /// The file of the library or of the program, or the library's name.
    pub(crate) bytes: Vec<u8>,
    // The names of the preloads.
    names: Vec<&'static [u8]>,
}

/// Returns the command that binds a program.
pub(crate) fn bind(program: &[u8]) -> Command<'_> {
    Command::Bind {
        program,
        base: BASE,
    }
}

// Returns the kind of event for a word.
fn named(word: &str) -> Result<What> {
    for (spelt, what) in WORDS {
        if spelt == word {
            return Ok(what);
        }
    }
    bail!("the event {word}")
}

// Returns the letter in a word. For `-` returns 0, which is the name of no library.
fn letter(word: &str) -> u8 {
    match word.bytes().next() {
        Some(b'-') | None => 0,
        Some(letter) => letter,
    }
}

// Returns the name that is this letter.
fn name_of(letter: u8) -> &'static [u8] {
    let place = LETTERS.iter().take_while(|other| **other != letter).count();
    LETTERS.get(place..place.saturating_add(1)).unwrap_or(b"")
}

// Returns the file of the library `name`. `words` describe it in the form `VERSION BYTES`.
fn library(alloc: Global, name: u8, words: &str) -> Result<Vec<u8>> {
    let (version, size) = words.split_once(' ').context("a library without a size")?;
    let (version, size) = (version.parse::<u8>()?, size.parse::<usize>()?);
    Ok(padded(alloc, name, version, size)?)
}

impl Event {
    // Reads an event from a text.
    fn of(alloc: Global, text: &str) -> Result<Event> {
        let (word, rest) = text.split_once(' ').unwrap_or((text, ""));
        let (first, behind) = rest.split_once(' ').unwrap_or((rest, ""));
        let what = named(word)?;
        let name = letter(first);
        let bytes = match what {
            What::Install | What::Replace => library(alloc, name, behind)?,
            What::Bind | What::Begin => Vec::from_slice(alloc, &program(name))?,
            What::Remove => Vec::from_slice(alloc, &[name])?,
            _ => Vec::new(alloc),
        };
        let slot = match what {
            What::Advance | What::Cancel => first.parse::<usize>()?,
            _ => 0,
        };
        let mut names = Vec::new(alloc);
        if what == What::Choose {
            for word in rest.split_whitespace() {
                names.push(name_of(letter(word)))?;
            }
        }
        Ok(Event {
            what,
            name,
            slot,
            bytes,
            names,
        })
    }

    /// Reads events, which are separated by semicolons. The text `nothing` means no events.
    pub(crate) fn all(alloc: Global, text: &str) -> Result<Vec<Rc<Event>>> {
        let mut events = Vec::new(alloc);
        if text != "nothing" {
            for one in text.split("; ") {
                events.push(Rc::new(alloc, Event::of(alloc, one)?)?)?;
            }
        }
        Ok(events)
    }

    /// Returns the event as a command of a registry. Steps of binders aren't commands.
    pub(crate) fn command(&self) -> Command<'_> {
        match self.what {
            What::Install => Command::Install(&self.bytes),
            What::Replace => Command::Replace(&self.bytes),
            What::Remove => Command::Remove(&self.bytes),
            What::Choose => Command::SetPreloads(&self.names),
            What::Bind | What::Begin => bind(&self.bytes),
            What::List | What::Advance | What::Cancel => Command::List,
        }
    }

    /// Returns the event in the type that the binders of a registry accept.
    pub(crate) fn binder_event(&self) -> binders::Event<'_> {
        match self.what {
            What::Begin => binders::Event::Begin {
                program: &self.bytes,
                base: BASE,
            },
            What::Advance => binders::Event::Advance(self.slot),
            What::Cancel => binders::Event::Cancel(self.slot),
            _ => binders::Event::Apply(self.command()),
        }
    }

    /// Returns the number of calls of the disk that a change makes. There are `libraries` libraries
    /// after the change. A change writes the sectors of the file and its entry and the catalogues,
    /// makes a sync, writes the root, and makes a sync. A removal writes no file, and a change of
    /// the preloads writes only the root.
    pub(crate) fn calls(&self, libraries: usize) -> u64 {
        let catalogues = libraries.div_ceil(64) as u64;
        let file = self.bytes.len().div_ceil(512) as u64;
        match self.what {
            What::Install | What::Replace => file.saturating_add(catalogues).saturating_add(4),
            What::Remove => catalogues.saturating_add(3),
            _ => 2,
        }
    }

    /// Returns whether the event is a change, unless it is refused.
    pub(crate) fn is_change(&self) -> bool {
        matches!(
            self.what,
            What::Install | What::Replace | What::Remove | What::Choose
        )
    }
}
