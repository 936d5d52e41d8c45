// Makes updates by their calls: on a disk whose calls fail, and on a disk with just enough room.

use crate::update_streams::{held, one};
use registry::Registry;
use requests::{Command, Refusal, Reply};
use samples::library;
use sector_disk::{Fuse, Memory};
use std::alloc::Global;
use std::test::Fail;

// The number of the disk's calls that an opening makes: a sync, and reads of two roots, the
// catalogue, an entry and a file.
const OPENING: u64 = 6;

// The results of an update: the refusal of its line, the refusal of its commit, and the number of
// libraries on the disk afterwards.
type Told = (Option<Refusal>, Option<Refusal>, usize);

// Installs the library `b` in an update whose call number `call` fails. Returns the results of the
// update.
fn cut(alloc: Global, call: u64, forever: bool, late: bool) -> Option<Told> {
    let fuse = Fuse::new(one(alloc)?, OPENING.saturating_add(call), forever, late);
    let Ok(registry) = Registry::open(alloc, fuse) else {
        return None;
    };
    let mut update = match registry.update() {
        Ok(update) => update,
        Err((_, registry)) => {
            let _ = registry.into_disk();
            return None;
        }
    };
    let reply = update.apply(&Command::Install(&library(b'b', 0)));
    let (made, registry) = update.commit();
    let held = held(alloc, registry.into_disk().into_inner())?;
    match reply {
        Reply::Refused(refusal) => Some((Some(refusal), made.err(), held)),
        _ => Some((None, made.err(), held)),
    }
}

// Returns the expected results of `cut`. The calls of the update are the writes of the file, the
// entry and the catalogue, a sync, the write of the root, and a sync.
fn wanted(call: u64, late: bool) -> Told {
    match call {
        1 | 2 => (Some(Refusal::Device), Some(Refusal::Reopen), 1),
        3 | 4 => (None, Some(Refusal::Device), 1),
        5 => (None, Some(Refusal::Device), if late { 2 } else { 1 }),
        6 => (None, Some(Refusal::Device), 2),
        _ => (None, None, 2),
    }
}

#[test]
fn each_call_of_an_update_fails(rt: HostRuntime) {
    for call in 1..=7 {
        for (forever, late) in [(false, false), (false, true), (true, false), (true, true)] {
            let told = cut(rt.alloc(), call, forever, late);
            assert!(rt; told == Some(wanted(call, late)));
        }
    }
}

// Replaces the library `a` in an update, which is committed or given up. Returns whether that
// succeeds, and the registry after the update.
fn replaced(
    registry: Registry<Memory>,
    version: u8,
    is_committed: bool,
) -> (bool, Registry<Memory>) {
    let mut update = match registry.update() {
        Ok(update) => update,
        Err((_, registry)) => return (false, registry),
    };
    let reply = update.apply(&Command::Replace(&library(b'a', version)));
    let is_planned = matches!(reply, Reply::Done);
    if is_committed {
        let (made, registry) = update.commit();
        (is_planned && made.is_ok(), registry)
    } else {
        (is_planned, update.give_up())
    }
}

#[test]
fn what_an_update_replaced_is_free_behind_it(rt: HostRuntime) -> Result<(), Fail> {
    // In addition to the sectors of the library `a`, two sectors are free: as many as another
    // version of `a` needs.
    let Ok(mut registry) = Registry::format(rt.alloc(), Memory::new(rt.alloc(), 8)?) else {
        panic!(rt; "no registry")
    };
    let reply = registry.apply(&Command::Install(&library(b'a', 0)));
    let (first, registry) = replaced(registry, 1, true);
    let (given_up, registry) = replaced(registry, 2, false);
    let (second, mut registry) = replaced(registry, 3, true);
    let last = registry.apply(&Command::Replace(&library(b'a', 4)));
    let _ = registry.into_disk();
    assert!(rt; matches!((reply, last), (Reply::Done, Reply::Done)) && first && given_up && second);
    Ok(())
}
