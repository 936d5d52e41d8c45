// Tests of scripts over streams that fail, and of a script with each form of line.

ghost use Rattle.std.specs.Prelude.{⊤};

use crate::streams::Turn::Says;
use crate::streams::{Full, Stops, Turn, Turns};
use binders::{Binders, Event, EventReply};
use commands::{ScriptFault, Summary, TakesEvents, run_script};
use registry::Registry;
use requests::{Command, Reply};
use samples::{library, put};
use sector_disk::Memory;
use std::alloc::Global;
use std::io::ErrorKind;
use std::test::Fail;

/// Replies Done to every event, and stores a letter for each event.
#[derive(Drop)]
struct Asked {
    /// The letters of the events.
    letters: Vec<u8>,
}

impl TakesEvents for Asked {
    ghost step = { λ _ _ _ _. ⊤ };

    fn happen(&mut self, event: &Event<'_>) -> EventReply {
        let letter = match event {
            Event::Apply(Command::Install(_)) => b'i',
            Event::Apply(Command::Replace(_)) => b'r',
            Event::Apply(Command::Remove(_)) => b'd',
            Event::Apply(Command::SetPreloads(_)) => b'p',
            Event::Apply(Command::Bind { .. }) => b'b',
            Event::Apply(Command::List) => b'l',
            Event::Begin { .. } => b'g',
            Event::Advance(_) => b'a',
            Event::Cancel(_) => b'c',
        };
        let _ = self.letters.push(letter);
        EventReply::Replied(Reply::Done)
    }
}

/// The result of a script.
type Ended = Result<Summary, ScriptFault>;

/// Returns the summary of `lines` lines, of which `refused` were refused.
pub(crate) fn summary(lines: u64, refused: u64) -> Summary {
    Summary { lines, refused }
}

/// Returns an `Asked` without events.
fn nothing_asked(alloc: Global) -> Asked {
    Asked {
        letters: Vec::new(alloc),
    }
}

/// Runs a script over a reader with these turns. Returns the script's result, the letters of its
/// events, and its output.
fn run_turns(alloc: Global, turns: &[Turn]) -> (Ended, Vec<u8>, Vec<u8>) {
    let mut asked = nothing_asked(alloc);
    let mut output = Vec::new(alloc);
    let ended = run_script(alloc, &mut Turns(turns), &mut output, &mut asked);
    (ended, asked.letters, output)
}

/// A script with each form of line, split at arbitrary places.
static FORMS: [Turn; 6] = [
    Says("install 0aF"),
    Says("F\nrepl"),
    Says("ace 00\nremove !~\n"),
    Says("preload\npreload a b\nbind 0x"),
    Says("1 00\nlist\nbegin 0x2 00\nadvance 0\n"),
    Says("cancel 9\nlist \n\nlist"),
];

#[test]
fn each_form_of_line_asks_its_command(rt: HostRuntime) {
    let (ended, letters, output) = run_turns(rt.alloc(), &FORMS);
    let wanted = b"ok\nok\nok\nok\nok\nok\nok\nok\nok\nok\n\
        refused L1 BadLine\nrefused L1 BadLine\nrefused L2 CutLine\n";
    let is_asked = letters.as_slice() == b"irdppblgac".as_slice();
    let is_written = output.as_slice() == wanted.as_slice();
    assert!(rt; (ended, is_asked, is_written) == (Ok(summary(13, 3)), true, true));
}

const FAILS: Turn = Turn::Fails(ErrorKind::Other);

const READ: ScriptFault = ScriptFault::Read;

const MEMORY: ScriptFault = ScriptFault::OutOfMemory;

/// The turns of a reader, the letters of the events, and the script's result. Each event is
/// answered `ok`.
static CUT: [(&[Turn], &str, ScriptFault); 6] = [
    // The reader fails immediately, in the middle of a line, and between two lines.
    (&[FAILS], "", READ),
    (&[Says("li"), FAILS], "", READ),
    (&[Says("list\npreload"), FAILS], "l", READ),
    (&[Says("list\npre"), Says("load\n"), FAILS], "lp", READ),
    (&[Says("list\n"), Says("list\nlist"), FAILS], "ll", READ),
    (
        &[Says("list\n"), Turn::Fails(ErrorKind::OutOfMemory)],
        "l",
        MEMORY,
    ),
];

/// Returns whether a script ends with the fault after the events `asked`.
fn is_cut(alloc: Global, turns: &[Turn], asked: &str, fault: ScriptFault) -> bool {
    let (ended, letters, output) = run_turns(alloc, turns);
    ended == Err(fault)
        && letters.as_slice() == asked.as_bytes()
        && output.len() == asked.len().saturating_mul(3)
}

#[test]
fn a_reader_fails_after_these_lines(rt: HostRuntime) {
    for &(turns, asked, fault) in &CUT {
        assert!(rt; is_cut(rt.alloc(), turns, asked, fault));
    }
}

/// Runs a script whose writer accepts `room` bytes. Returns its result, and the number of events.
fn run_full(alloc: Global, text: &str, room: usize) -> (Ended, usize) {
    let mut asked = nothing_asked(alloc);
    let mut out = Full::with_room(room);
    let ended = run_script(alloc, &mut text.as_bytes(), &mut out, &mut asked);
    (ended, asked.letters.len())
}

const UNWRITTEN: Ended = Err(ScriptFault::Write);

#[test]
fn a_writer_fails_at_each_write(rt: HostRuntime) {
    let done = summary(7, 2);
    for (room, events, wanted) in [
        // The first change was made. Its answer is written after the answers to three other lines.
        (0, 3, UNWRITTEN),
        (24, 3, UNWRITTEN),
        (25, 3, UNWRITTEN),
        (27, 3, UNWRITTEN),
        // The second change was made. Its answer is written after the answer to one other line.
        (28, 5, UNWRITTEN),
        (33, 5, UNWRITTEN),
        // With room for 34 or 52 bytes, the last answer doesn't fit. With room for 53 bytes, it
        // fits.
        (34, 5, UNWRITTEN),
        (52, 5, UNWRITTEN),
        (53, 5, Ok(done)),
    ] {
        let script = "list\nno line\nlist\npreload\nlist\npreload\nlis";
        let found = run_full(rt.alloc(), script, room);
        assert!(rt; found == (wanted, events));
    }
}

/// Runs a script over an empty registry. The writer accepts `writes` writes of at most `most` bytes
/// each. Returns the script's result, and the bytes that are written.
fn run_stopped(
    alloc: Global,
    script: &[u8],
    (writes, most): (usize, usize),
) -> Result<(Ended, Vec<u8>), Fail> {
    let Ok(registry) = Registry::format(alloc, Memory::new(alloc, 8)?) else {
        return Err("refused".into());
    };
    let mut binders = Binders::new(alloc, registry);
    let mut out = Stops {
        writes,
        most,
        taken: Vec::new(alloc),
    };
    let mut reader = script;
    let ended = run_script(alloc, &mut reader, &mut out, &mut binders);
    let _ = binders.into_registry().into_disk();
    Ok((ended, out.taken))
}

/// Returns whether a script ends with the fault of its writer, and only the beginning of its text
/// is written. `room` has the numbers `writes` and `most` of `run_stopped`.
fn is_front(alloc: Global, script: &[u8], text: &[u8], room: (usize, usize)) -> Result<bool, Fail> {
    let (ended, taken) = run_stopped(alloc, script, room)?;
    Ok(ended == UNWRITTEN && text.starts_with(&taken) && taken.len() < text.len())
}

/// Returns whether the text is written completely if the writer accepts `writes` writes, and only
/// its beginning if it accepts fewer.
fn takes_writes(
    alloc: Global,
    script: &[u8],
    (ended, text): &(Ended, Vec<u8>),
    (writes, most): (usize, usize),
) -> Result<bool, Fail> {
    let mut holds = true;
    for fewer in 0..writes {
        holds &= is_front(alloc, script, text, (fewer, most))?;
    }
    let (last, taken) = run_stopped(alloc, script, (writes, most))?;
    Ok(holds && last == *ended && taken == *text)
}

/// The offset in a file of `p_memsz` of its segment.
const MEMORY_SIZE_AT: usize = 104;

#[test]
fn a_writer_fails_within_an_image(rt: HostRuntime) -> Result<(), Fail> {
    let alloc = rt.alloc();
    let mut program = library(b'a', 0);
    put(&mut program, MEMORY_SIZE_AT, &33_000u64.to_le_bytes());
    let program = hex::encode(alloc, program.as_slice())?;
    let script = format!(in alloc; "list\nbind 0x0 {program}\nlist\n")?;
    let whole = run_stopped(alloc, script.as_bytes(), (usize::MAX, usize::MAX))?;
    // The writes are a line, two pieces of the image, and a line. The test is repeated with a
    // writer that accepts at most 8 KiB at a time.
    let at_once = takes_writes(alloc, script.as_bytes(), &whole, (4, usize::MAX))?;
    let in_pieces = takes_writes(alloc, script.as_bytes(), &whole, (11, 8192))?;
    let is_long = whole.1.len() > 68_000;
    assert!(rt; (whole.0, is_long, at_once, in_pieces) == (Ok(summary(3, 0)), true, true, true));
    Ok(())
}
