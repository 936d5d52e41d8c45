// Rounds: a disk is opened, commands run on it, and a stop follows, as in `run_rounds`. To find the
// contents that each sector may keep, each round is also cut at each of its calls, with every pick.

use crate::answer::answers;
use crate::course::Course;
use crate::cut::Cut;
use crate::event::Event;
use crate::mixture::{all_picks, leave_same, stopped};
use crate::plain::Plain;
use crate::run::{Told, disk_after};
use crate::sides::Sides;
use crate::tally::Tally;
use anyhow::{Result, bail};
use registry::{Round, RoundReplies, run_rounds};
use sector_disk::Memory;
use std::alloc::Global;
use std::rc::Rc;
use store::StoreRefusal;

// Lists of picks that are shorter than the disk, so they are repeated.
const SHORT: [&[usize]; 5] = [&[], &[0], &[1], &[1, 0], &[0, 1, 1]];

// A round: its cut, its expected answers, and the content that each sector keeps at the stop.
#[derive(Drop)]
struct Turn {
    cut: Cut,
    told: Rc<Told>,
    picks: Vec<usize>,
}

// Rounds that were played: the changes in them and before them, and the disk after them.
#[derive(Drop)]
struct Past {
    turns: Vec<Rc<Turn>>,
    done: Vec<Rc<Event>>,
    disk: Memory,
}

// A round with a cut, after other rounds: the round's expected answers, the disk after it, and the
// states that this disk may have.
#[derive(Drop)]
struct Ended<'a> {
    past: &'a Past,
    cut: Cut,
    told: Rc<Told>,
    disk: Memory,
    plain: Plain,
    sides: Sides<'a>,
}

// Rounds of commands on a disk of `sectors` sectors with a registry. Each element of `played` has
// rounds that were played one after the other.
#[derive(Drop)]
struct Game {
    sectors: u32,
    disk: Memory,
    rounds: Vec<Vec<Rc<Event>>>,
    played: Vec<Past>,
    // Whether another round follows.
    goes_on: bool,
}

// Returns the answers of a round as texts.
fn told_of(alloc: Global, replies: RoundReplies) -> Result<Told> {
    match replies {
        RoundReplies::Ran(replies) => Ok(Ok(answers(alloc, &replies)?)),
        RoundReplies::NotRun(refusal) => Ok(Err(refusal)),
    }
}

// Returns a round in the type that `run_rounds` accepts.
fn round<'b>(alloc: Global, turn: &Turn, events: &'b [Rc<Event>]) -> Result<Round<'b>> {
    let mut commands = Vec::new(alloc);
    for event in events {
        commands.push(event.command())?;
    }
    Ok(Round {
        commands,
        cut: turn.cut.number,
        late: turn.cut.late,
        picks: Vec::from_slice(alloc, &turn.picks)?,
    })
}

// Returns the expected answers of a round of these events with this cut. If the cut is in the
// round's opening, no command runs, and the disk is the same as after a cut of the first command's
// first call.
fn wanted(plain: &mut Plain, events: &[Rc<Event>], cut: Cut) -> Result<Told> {
    if cut.is_in_opening() {
        let _ = plain.run(events.get(..1).unwrap_or(events), cut)?;
        return Ok(Err(StoreRefusal::Device));
    }
    Ok(Ok(plain.run(events, cut)?))
}

impl<'a> Ended<'a> {
    // Plays a round with this cut, after other rounds.
    fn of(tally: &Tally, past: &'a Past, course: &'a Course, cut: Cut) -> Result<Ended<'a>> {
        let alloc = tally.rt.alloc();
        let mut plain = course.plain(alloc, true)?;
        let told = wanted(&mut plain, &course.run.events, cut)?;
        let mut sides = plain.sides(&course.probe)?;
        if tally.on_purpose {
            sides.exchange();
        }
        Ok(Ended {
            past,
            cut,
            told: Rc::new(alloc, told)?,
            disk: course.run.left(alloc, course.run.events.len(), cut)?,
            plain,
            sides,
        })
    }

    // Returns the rounds of the past, followed by this one, which is stopped with these picks.
    fn turns(&self, alloc: Global, picks: &[usize]) -> Result<Vec<Rc<Turn>>> {
        let turn = Turn {
            cut: self.cut,
            told: Rc::clone(&self.told)?,
            picks: Vec::from_slice(alloc, picks)?,
        };
        let mut all = self.past.turns.to_vec(alloc)?;
        all.push(Rc::new(alloc, turn)?)?;
        Ok(all)
    }
}

impl Game {
    // Makes the game on a disk of `sectors` sectors after the changes `start`.
    fn on(alloc: Global, sectors: u32, start: &[Rc<Event>]) -> Result<Game> {
        let disk = disk_after(alloc, sectors, start)?;
        let past = Past {
            turns: Vec::new(alloc),
            done: start.to_vec(alloc)?,
            disk: disk.copy()?,
        };
        let mut played = Vec::new(alloc);
        played.push(past)?;
        Ok(Game {
            sectors,
            disk,
            rounds: Vec::new(alloc),
            played,
            goes_on: true,
        })
    }

    // Runs the rounds `turns` with `run_rounds`, from the first disk, and compares the answers with
    // the expected ones, and the disk with `left`.
    fn compare(&self, tally: &mut Tally, turns: &[Rc<Turn>], left: &Memory) -> Result<()> {
        let alloc = tally.rt.alloc();
        let mut rounds = Vec::new(alloc);
        let mut cuts = Vec::new(alloc);
        for (turn, events) in turns.iter().zip(&self.rounds) {
            cuts.push(turn.cut)?;
            rounds.push(round(alloc, turn, events)?)?;
        }
        let Ok((replies, disk)) = run_rounds(alloc, self.disk.copy()?, rounds) else {
            bail!("no memory for the rounds");
        };
        let mut right = replies.len() == turns.len();
        for (turn, replies) in turns.iter().zip(replies) {
            right = told_of(alloc, replies)? == *turn.told && right;
        }
        tally.count(right, &cuts, "what is told of rounds");
        let right = leave_same(alloc, &disk, left)?;
        tally.count(right, &cuts, "the disk behind rounds");
        Ok(())
    }

    // Stops a round with each list of picks in `SHORT`.
    fn stop_short(&self, tally: &mut Tally, ended: &Ended) -> Result<()> {
        for picks in SHORT {
            let turns = ended.turns(tally.rt.alloc(), picks)?;
            self.compare(tally, &turns, &stopped(&ended.disk, picks)?)?;
        }
        Ok(())
    }

    // Stops a round with these picks. Returns all rounds up to it, as a new past.
    fn stop(&self, tally: &mut Tally, ended: &Ended, picks: &[usize]) -> Result<Past> {
        let turns = ended.turns(tally.rt.alloc(), picks)?;
        let disk = stopped(&ended.disk, picks)?;
        let (_, is_new) = ended.sides.see(tally, &disk, ended.plain.wanted)?;
        self.compare(tally, &turns, &disk)?;
        let done = ended.plain.changes(is_new).to_vec(tally.rt.alloc())?;
        Ok(Past { turns, done, disk })
    }

    // Stops the disk of a round with every pick. If it is a first round, also stops it with lists
    // of picks that are shorter than the disk.
    fn stop_each(&mut self, tally: &mut Tally, ended: &Ended) -> Result<()> {
        if ended.past.turns.is_empty() {
            self.stop_short(tally, ended)?;
        }
        for picks in &all_picks(tally.rt.alloc(), &ended.disk)? {
            let past = self.stop(tally, ended, picks)?;
            if self.goes_on {
                self.played.push(past)?;
            }
        }
        Ok(())
    }

    // Plays one more round after the rounds of `past`: with a cut at each of its calls, and without
    // a cut.
    fn play_behind(&mut self, tally: &mut Tally, past: &Past, course: &Course) -> Result<()> {
        for &cut in &course.cuts(tally.rt.alloc())? {
            if cut.forever {
                let ended = Ended::of(tally, past, course, cut)?;
                self.stop_each(tally, &ended)?;
            }
        }
        let ended = Ended::of(tally, past, course, Cut::NONE)?;
        self.stop_each(tally, &ended)
    }

    // Plays one more round after all rounds that were played.
    fn play(&mut self, tally: &mut Tally, events: &[Rc<Event>]) -> Result<()> {
        let alloc = tally.rt.alloc();
        self.rounds.push(events.to_vec(alloc)?)?;
        let pasts = std::mem::replace(&mut self.played, Vec::new(alloc));
        for past in &pasts {
            let disk = past.disk.copy()?;
            let course = Course::on(alloc, disk, self.sectors, &past.done, events, false)?;
            self.play_behind(tally, past, &course)?;
        }
        Ok(())
    }
}

/// Plays rounds of commands on a disk of `sectors` sectors after the changes `start`. In `text` the
/// rounds are separated by ` / `.
pub(crate) fn play_rounds(
    tally: &mut Tally,
    sectors: u32,
    start: &[Rc<Event>],
    text: &str,
) -> Result<()> {
    let alloc = tally.rt.alloc();
    let mut game = Game::on(alloc, sectors, start)?;
    let mut left = text.split(" / ").count();
    for round in text.split(" / ") {
        left = left.saturating_sub(1);
        game.goes_on = left > 0;
        game.play(tally, &Event::all(alloc, round)?)?;
    }
    Ok(())
}
