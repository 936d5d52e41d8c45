// Reads the rows of a file, and runs each of them.

use crate::course::Course;
use crate::event::Event;
use crate::rounds::play_rounds;
use crate::run::{Beginning, disk_after};
use crate::tally::Tally;
use crate::task::Asked;
use crate::trial::cut_task;
use crate::upgrades::cut_making;
use anyhow::{Context, Result, bail};
use std::fs;
use std::rc::Rc;

// Returns the lines of a file, without empty lines and comments.
fn lines(tally: &Tally, file: &str) -> Result<Vec<String>> {
    let text = fs::read_to_string(tally.rt, file).context(format_args!("the file {file}"))?;
    let mut lines = Vec::new(tally.rt.alloc());
    for line in text.lines() {
        if !line.is_empty() && !line.starts_with('#') {
            lines.push(String::from_str(tally.rt.alloc(), line)?)?;
        }
    }
    Ok(lines)
}

// Runs events on a disk of `sectors` sectors after the changes `start`.
fn run_course(
    tally: &mut Tally,
    word: &str,
    sectors: u32,
    start: &[Rc<Event>],
    events: &[Rc<Event>],
) -> Result<()> {
    match word {
        "file" => return cut_task(tally, Asked::Commands, sectors, start, events),
        "update" => return cut_task(tally, Asked::Update, sectors, start, events),
        _ => {}
    }
    let alloc = tally.rt.alloc();
    let disk = disk_after(alloc, sectors, start)?;
    let course = Course::on(
        alloc,
        disk,
        sectors,
        start,
        events,
        word == "follow" || word == "binders",
    )?;
    match word {
        "list" => course.cut_list(tally),
        "follow" => course.follow(tally),
        _ => course.cut_flights(tally),
    }
}

// Runs events on disks of several sizes after the changes `start`.
fn run_events(
    tally: &mut Tally,
    word: &str,
    sizes: &str,
    start: &[Rc<Event>],
    text: &str,
) -> Result<()> {
    let events = Event::all(tally.rt.alloc(), text)?;
    for size in sizes.split(' ') {
        run_course(tally, word, size.parse::<u32>()?, start, &events)?;
    }
    Ok(())
}

// Runs each line of a file as the events of a list.
fn run_lists(tally: &mut Tally, sizes: &str, start: &[Rc<Event>], file: &str) -> Result<()> {
    for list in &lines(tally, file)? {
        run_events(tally, "list", sizes, start, list)?;
    }
    Ok(())
}

// Runs the events of a row in the way that the row's word names, after the changes `start`.
fn run_word(
    tally: &mut Tally,
    word: &str,
    disk: &str,
    start: &[Rc<Event>],
    rest: &str,
) -> Result<()> {
    match word {
        "format" => cut_making(tally, Beginning::Format, disk, start),
        "upgrade" => cut_making(tally, Beginning::Upgrade, disk, start),
        "full" => cut_making(tally, Beginning::Full, disk, start),
        "newer" => cut_making(tally, Beginning::Newer, disk, start),
        "rounds" => play_rounds(tally, disk.parse::<u32>()?, start, rest),
        "list" | "follow" | "binders" | "file" | "update" => run_events(
            tally, word, disk, start, rest,
        ),
        "lists" => run_lists(tally, disk, start, rest),
        _ => bail!("the word {word}"),
    }
}

// Runs a row. A row has a word, a disk, the changes that are made before the events, and the
// events.
fn run_row(tally: &mut Tally, row: &str) -> Result<()> {
    let (front, rest) = row.split_once(" | ").unwrap_or((row, "nothing"));
    let (word, disk) = front.split_once(' ').context("a row without a disk")?;
    let (start, rest) = rest.split_once(" | ").unwrap_or((rest, "nothing"));
    let start = Event::all(tally.rt.alloc(), start)?;
    run_word(tally, word, disk, &start, rest)
}

/// Runs the rows of a file. A row that begins with `wrong` has a deliberate fault.
pub(crate) fn run_file(tally: &mut Tally, file: &str) -> Result<()> {
    for line in &lines(tally, file)? {
        let line = line.as_str();
        if line.starts_with("wrong ") {
            tally.on_purpose = true;
        }
        let row = line.strip_prefix("wrong ").unwrap_or(line);
        run_row(tally, row).context(format_args!("{file}: {line}"))?;
    }
    Ok(())
}
