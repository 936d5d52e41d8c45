// Tests when the answers of a script are written. A reader and a writer share a counter for this.

ghost use Rattle.std.specs.Prelude.{⊤};

use crate::script_streams::summary;
use binders::{Event, EventReply};
use commands::{ScriptFault, Summary, TakesEvents, run_script};
use requests::{Command, Refusal, Reply};
use std::alloc::Global;
use std::cell::Cell;
use std::io;
use std::io::{ErrorKind, Read, Write};

/// A reader that returns these texts. It fails if it is called again before every line that it has
/// returned is answered.
#[derive(Drop)]
struct Asking<'a> {
    /// The texts, each with the number of lines that end in the texts before it.
    texts: &'a [(&'a str, usize)],
    /// The number of texts that have been returned.
    given: usize,
    answered: &'a Cell<usize>,
}

impl Read for Asking<'_> {
    fn read(&mut self, buf: &mut [u8]) -> io::Result<usize> {
        let Some((text, lines)) = self.texts.get(self.given) else {
            return Ok(0);
        };
        if self.answered.get() != *lines {
            return Err(io::Error::from(ErrorKind::Other));
        }
        self.given = self.given.saturating_add(1);
        let count = text.len().min(buf.len());
        buf[..count].copy_from_slice(&text.as_bytes()[..count]);
        Ok(count)
    }
}

/// A writer that counts its calls, and the lines that are written to it.
#[derive(Drop)]
struct Answers<'a> {
    calls: usize,
    answered: &'a Cell<usize>,
}

impl Write for Answers<'_> {
    fn write(&mut self, bytes: &[u8]) -> io::Result<usize> {
        self.calls = self.calls.saturating_add(1);
        let mut lines = self.answered.get();
        for byte in bytes {
            if *byte == b'\n' {
                lines = lines.saturating_add(1);
            }
        }
        self.answered.set(lines);
        Ok(bytes.len())
    }

    fn flush(&mut self) -> io::Result<()> {
        Ok(())
    }
}

/// Refuses to remove `a`, fails to remove `b`, and answers everything else with Done. Records
/// whether an event happens before the answer to an earlier change is written. Refused changes
/// don't count.
#[derive(Drop)]
struct Watching<'a> {
    asked: usize,
    /// The number of answers that must have been written.
    due: usize,
    is_early: bool,
    answered: &'a Cell<usize>,
}

impl TakesEvents for Watching<'_> {
    ghost step = { λ _ _ _ _. ⊤ };

    fn happen(&mut self, event: &Event<'_>) -> EventReply {
        self.is_early |= self.answered.get() < self.due;
        self.asked = self.asked.saturating_add(1);
        let reply = match event {
            Event::Apply(Command::List) => return EventReply::Replied(Reply::Done),
            Event::Apply(Command::Remove(b"a")) => {
                return EventReply::Replied(Reply::Refused(Refusal::NotInstalled));
            }
            Event::Apply(Command::Remove(_)) => Reply::Refused(Refusal::Device),
            _ => Reply::Done,
        };
        self.due = self.asked;
        EventReply::Replied(reply)
    }
}

/// The texts that are read, each with the number of lines that end before it. The first has one
/// line, and the second three lines, which are answered with one write. In the third, the answers
/// to a refused change, to the listings beside it and to a change that is made take one write; then
/// a change fails, and its answer is written with the answer that waits before it. The fourth has
/// the rest of a line, two more lines, and a line without a newline.
static TEXTS: [(&str, usize); 4] = [
    ("list\n", 0),
    ("list\nlist\nlist\n", 1),
    ("list\nremove a\nlist\npreload\nremove a\nremove b\nli", 4),
    ("st\nlist\nno line\nlist", 10),
];

/// Runs a script over these texts. Returns its result, the number of calls of its writer, and
/// whether an answer was written too late.
fn watched(alloc: Global, answered: &Cell<usize>) -> (Result<Summary, ScriptFault>, usize, bool) {
    let mut reader = Asking {
        texts: &TEXTS,
        given: 0,
        answered,
    };
    let mut writer = Answers { calls: 0, answered };
    let mut registry = Watching {
        asked: 0,
        due: 0,
        is_early: false,
        answered,
    };
    let ended = run_script(alloc, &mut reader, &mut writer, &mut registry);
    (ended, writer.calls, registry.is_early)
}

#[test]
fn no_answer_is_missing_when_more_is_read_or_a_change_was_made(rt: HostRuntime) {
    let answered = Cell::new(0usize);
    let found = watched(rt.alloc(), &answered);
    let wanted = summary(14, 5);
    // The line without a newline is answered by itself, because the reader first has to report the
    // end of its input.
    assert!(rt; (found, answered.get()) == ((Ok(wanted), 6, false), 14));
}
