// Runs rounds of commands on a disk in memory, and stops the disk after each round.
use crate::registry::Registry;
use requests::{Command, Reply};
use sector_disk::{Fuse, Memory};
use std::alloc::{AllocError, Global};
use store::StoreRefusal;

/// A round: the disk is opened, commands are applied, and the disk is stopped. Call number `cut` of
/// the round and all later calls fail. If `late` is true, call number `cut` reaches the disk before
/// it fails.
#[derive(Drop)]
pub struct Round<'a> {
    /// The commands of the round, in the order in which they are applied.
    pub commands: Vec<Command<'a>>,
    /// The number of the call that fails, counted from 1, or 0 if no call fails.
    pub cut: u64,
    /// Whether the failing call reaches the disk.
    pub late: bool,
    /// The numbers that pick each sector's content at the stop. The list is repeated as often as
    /// necessary.
    pub picks: Vec<usize>,
}

/// The result of a round.
#[derive(Drop)]
pub enum RoundReplies {
    /// One reply for each command.
    Ran(Vec<Reply>),
    /// The opening was refused, or memory for the replies was refused.
    NotRun(StoreRefusal),
}

ghost use Rattle.std.specs.Prelude.{◌≡◌, IfOk, IfErr};
ghost use Rattle.requests.specs.Runs.{Run};
ghost use Rattle.states.specs.State.{State};
ghost use Rattle.registry.specs.Rounds.{AlwaysStands, IsFused, IsStoppedBy, RoundLeads};
ghost use Rattle.registry.specs.Rounds.{picked, standing};

// Returns the pick for sector number `at`. Repeats `picks` as often as necessary. If `picks` is
// empty, returns 0.
fn pick(picks: &[usize], at: u32) -> usize
    ensures { result ≡ picked picks.now at }
{
    if picks.is_empty() {
        return 0;
    }
    picks[at as usize % picks.len()]
}

// Makes a new fuse for a round, with the disk `disk` under it.
fn behind_fuse(disk: Memory, round: &Round<'_>) -> Fuse<Memory>
    ensures { IsFused disk round.now result }
{
    Fuse::new(disk, round.cut, true, round.late)
}

// Stops `disk` with the picks `picks`, and returns the stopped disk.
fn stop_by(disk: Memory, picks: &[usize]) -> Memory
    ensures { IsStoppedBy picks.now disk result }
{
    disk.stop(|at, _| pick(picks, at))
}

// Opens the disk in its fuse, runs the commands, and stops the disk.
fn run_round(alloc: Global, disk: Memory, round: &Round<'_>) -> (RoundReplies, Memory)
    ensures { (s : State) → AlwaysStands disk s → (s' : State)
        × RoundLeads (standing disk s) round.now result.0 (standing result.1 s') }
{
    let fuse = behind_fuse(disk, round);
    let (replies, fuse) = match Registry::open(alloc, fuse) {
        Ok(mut registry) => {
            let replies = match registry.run(&round.commands) {
                Ok(replies) => RoundReplies::Ran(replies),
                Err(_) => RoundReplies::NotRun(StoreRefusal::OutOfMemory),
            };
            (replies, registry.into_disk())
        }
        Err((refusal, fuse)) => (RoundReplies::NotRun(refusal), fuse),
    };
    (replies, stop_by(fuse.into_inner(), &round.picks))
}

/// Runs `rounds` one after the other. Returns the replies of each round, and the disk after the
/// last stop. If memory for the list of replies is refused, runs no round.
pub fn run_rounds(
    alloc: Global,
    disk: Memory,
    rounds: Vec<Round<'_>>,
) -> Result<(Vec<RoundReplies>, Memory), (AllocError, Memory)>
    // If the disk holds a state, each round starts with the disk and the state that the previous
    // round left. The returned disk is the one that the last round left, and holds the state after
    // this round.
    ensures ok { (s : State) → AlwaysStands disk s → IfOk result (λ done. (s' : State)
        × Run RoundLeads (standing disk s) rounds.entry.items done.0.items (standing done.1 s')
        × AlwaysStands done.1 s') }
    ensures err { IfErr result (λ refused. refused.1 ≡ disk) }
{
    let mut told = match Vec::with_capacity(alloc, rounds.len()) {
        Ok(told) => told,
        Err(refused) => return Err((refused, disk)),
    };
    let mut disk = disk;
    for round in &rounds {
        let (replies, stopped) = run_round(alloc, disk, round);
        told.push(replies).unwrap();
        disk = stopped;
    }
    Ok((told, disk))
}
