// Makes each call of a registry, of its binders, of an update and of the program once, by its
// public path, with enough memory. Some of these calls are for programs that use a registry without
// a script, and are made by no program here.

use crate::runs::words_of;
use binders::{Binders, Event, EventReply};
use commands::{Action, Shown, read_words, run_image, run_words};
use elf_dynamic::Object;
use hash_check::Admitted;
use registry::{FoundLibraries, Registry, Step, Update};
use requests::{Command, Refusal, Reply};
use samples::{library, program};
use sector_disk::Memory;
use std::alloc::Global;
use std::fs;
use std::test::Fail;

const BASE: u64 = 0x10000;

// The address of the version byte of library `a`, in the image of a program that needs `a`.
const VERSION: u64 = 0x110dc;

// Returns the version of the library `a` in an image.
fn version_in(reply: &Reply) -> Option<u8> {
    match reply {
        Reply::Bound(image) => image.byte(VERSION),
        _ => None,
    }
}

// Returns whether a reply lists the library `a`, and nothing else.
fn lists_a(reply: &Reply) -> bool {
    match reply {
        Reply::Listing(listing) => match listing.libraries.as_slice() {
            [(name, length)] => {
                let is_a = name.as_bytes() == b"a".as_slice() && *length == 344;
                is_a && listing.preloads.is_empty()
            }
            _ => false,
        },
        _ => false,
    }
}

// Returns whether these are the replies to a listing and a bind on a registry that has only the
// library `a`, in version `version`.
fn are_of(replies: &[Reply], version: u8) -> bool {
    match replies {
        [listing, bound] => lists_a(listing) && version_in(bound) == Some(version),
        _ => false,
    }
}

// Returns the two commands: a listing, and a bind of `program`.
fn asks(program: &[u8]) -> [Command<'_>; 2] {
    [
        Command::List,
        Command::Bind {
            program,
            base: BASE,
        },
    ]
}

// Returns whether a registry has only the library `a`, in version `version`.
fn has(registry: &mut Registry<Memory>, version: u8) -> bool {
    match Registry::run(registry, &asks(&program(b'a'))) {
        Ok(replies) => are_of(&replies, version),
        Err(_) => false,
    }
}

// Makes a new registry that has the library `a` in version 1.
fn made(alloc: Global) -> Option<Registry<Memory>> {
    let Ok(mut registry) = Registry::format(alloc, Memory::new(alloc, 16).ok()?) else {
        return None;
    };
    let reply = Registry::apply(&mut registry, &Command::Install(&library(b'a', 1)));
    if matches!(reply, Reply::Done) {
        return Some(registry);
    }
    let _ = Registry::into_disk(registry);
    None
}

// Makes a new registry that has the library `a` in version 1, and opens its disk with each call
// that opens a registry.
fn opened(alloc: Global) -> Option<Registry<Memory>> {
    let disk = Registry::into_disk(made(alloc)?);
    let Ok(registry) = Registry::upgrade(alloc, disk) else {
        return None;
    };
    let Ok(registry) = Registry::open_untested(alloc, Registry::into_disk(registry)) else {
        return None;
    };
    Registry::open(alloc, Registry::into_disk(registry)).ok()
}

// Returns whether `a` is the only library that was found, and no library is missing.
fn are_found(alloc: Global, found: &FoundLibraries) -> bool {
    let Ok(libraries) = FoundLibraries::libraries(found, alloc) else {
        return false;
    };
    let is_a = match libraries.as_slice() {
        [library] => library.name == b"a".as_slice(),
        _ => false,
    };
    is_a && !FoundLibraries::lacks_some(found)
}

// Returns whether the libraries of a program that needs `a` are found.
fn finds(alloc: Global, registry: &mut Registry<Memory>) -> bool {
    let needing = program(b'a');
    let Ok(object) = Object::read(&needing) else {
        return false;
    };
    let Ok(program) = Admitted::admit(alloc, object) else {
        return false;
    };
    match Registry::find_libraries(registry, &program) {
        Ok(found) => are_found(alloc, &found),
        Err(_) => false,
    }
}

#[test]
fn a_registry_is_made_opened_and_asked(rt: HostRuntime) {
    let Some(mut registry) = opened(rt.alloc()) else {
        panic!(rt; "no registry")
    };
    let is_whole = has(&mut registry, 1) && finds(rt.alloc(), &mut registry);
    let has_failed = Registry::has_failed(&registry);
    let _ = Registry::into_disk(registry);
    assert!(rt; is_whole && !has_failed);
}

// Returns whether a step of a binder is its last one, and returns an image with version 1 of the
// library `a`.
fn is_bound(step: &Result<Step, Refusal>) -> bool {
    match step {
        Ok(Step::Final(reply)) => version_in(reply) == Some(1),
        _ => false,
    }
}

// Returns whether a binder binds with version 1 of the library `a`, although this library is
// replaced after the binder begins.
fn binds(registry: &mut Registry<Memory>) -> bool {
    let Ok(mut binder) = Registry::begin(registry, &program(b'a'), BASE) else {
        return false;
    };
    let reply = Registry::apply(registry, &Command::Replace(&library(b'a', 2)));
    let first = Registry::advance(registry, &mut binder);
    let second = Registry::advance(registry, &mut binder);
    let third = Registry::advance(registry, &mut binder);
    Registry::end(registry, binder);
    matches!(
        (reply, first, second),
        (Reply::Done, Ok(Step::Going), Ok(Step::Going))
    ) && is_bound(&third)
}

#[test]
fn a_binder_of_a_registry_binds(rt: HostRuntime) {
    let Some(mut registry) = made(rt.alloc()) else {
        panic!(rt; "no registry")
    };
    let is_right = binds(&mut registry) && has(&mut registry, 2);
    let _ = Registry::into_disk(registry);
    assert!(rt; is_right);
}

// Returns whether the binder in slot 0 binds a program that needs the library `a`, after another
// binder in slot 0 was cancelled.
fn advances(binders: &mut Binders<Memory>) -> bool {
    let needing = program(b'a');
    let begun = Binders::begin(binders, &needing, BASE);
    let ended = Binders::cancel(binders, 0);
    let again = Binders::begin(binders, &needing, BASE);
    let first = Binders::advance(binders, 0);
    let second = Binders::advance(binders, 0);
    let third = Binders::advance(binders, 0);
    (begun, again) == (Ok(0), Ok(0))
        && matches!(
            (ended, first, second),
            (Reply::Done, Ok(Step::Going), Ok(Step::Going))
        )
        && is_bound(&third)
}

// Returns whether these are the replies to the events of a bind, after which its slot is free.
fn are_replies(replies: &[EventReply]) -> bool {
    match replies {
        [
            EventReply::Slot(0),
            EventReply::Going,
            EventReply::Going,
            EventReply::Replied(bound),
            EventReply::Replied(Reply::Refused(Refusal::NoSuchBinder)),
        ] => version_in(bound) == Some(1),
        _ => false,
    }
}

// Returns whether events bind a program that needs the library `a`.
fn runs_events(binders: &mut Binders<Memory>) -> bool {
    let program = program(b'a');
    let events = [
        Event::Begin {
            program: &program,
            base: BASE,
        },
        Event::Advance(0),
        Event::Advance(0),
        Event::Advance(0),
        Event::Cancel(0),
    ];
    match Binders::run_events(binders, &events) {
        Ok(replies) => are_replies(&replies),
        Err(_) => false,
    }
}

#[test]
fn binders_bind_in_steps_and_by_events(rt: HostRuntime) {
    let Some(registry) = made(rt.alloc()) else {
        panic!(rt; "no registry")
    };
    let mut binders = Binders::new(rt.alloc(), registry);
    let is_bound = advances(&mut binders) && runs_events(&mut binders);
    let listing = Binders::apply(&mut binders, &Command::List);
    let has_failed = Binders::has_failed(&binders);
    let _ = Registry::into_disk(Binders::into_registry(binders));
    assert!(rt; is_bound && lists_a(&listing) && !has_failed);
}

// Replaces the library `a` in an update, and commits it if `commits` is true. Returns whether each
// answer was right, and the registry after the update.
fn updated(registry: Registry<Memory>, version: u8, commits: bool) -> (bool, Registry<Memory>) {
    let mut update = match Registry::update(registry) {
        Ok(update) => update,
        Err((_, registry)) => return (false, registry),
    };
    let (file, program) = (library(b'a', version), program(b'a'));
    let [_, bind] = asks(&program);
    let replaced = Update::apply(&mut update, &Command::Replace(&file));
    let bound = Update::apply(&mut update, &bind);
    let is_planned = matches!(replaced, Reply::Done) && version_in(&bound) == Some(version);
    let is_right = is_planned && !Update::has_failed(&update);
    if commits {
        let (made, registry) = Update::commit(update);
        (is_right && made.is_ok(), registry)
    } else {
        (is_right, Update::give_up(update))
    }
}

#[test]
fn an_update_is_given_up_and_another_one_is_committed(rt: HostRuntime) {
    let Some(registry) = made(rt.alloc()) else {
        panic!(rt; "no registry")
    };
    let (is_planned, registry) = updated(registry, 2, false);
    let mut registry = registry;
    let is_kept = has(&mut registry, 1);
    let (is_made, registry) = updated(registry, 3, true);
    let mut registry = registry;
    let is_new = has(&mut registry, 3);
    let _ = Registry::into_disk(registry);
    assert!(rt; is_planned && is_kept && is_made && is_new);
}

#[test]
fn words_are_read_and_an_image_is_shown(rt: HostRuntime) -> Result<(), Fail> {
    let words = words_of(&rt, &["list", "disk"])?;
    let reads = matches!(read_words(&words), Some(Action::List { disk: "disk" }));
    let mut text = Vec::new(rt.alloc());
    let shown = run_image(rt.alloc(), &library(b'a', 0), BASE, &mut text);
    let front = b"object 0x0000000000010000 /program\n".as_slice();
    assert!(rt; reads && shown == Ok(Shown::Image) && text.starts_with(front));
    Ok(())
}

#[test]
fn words_are_run(rt: HostRuntime) -> Result<(), Fail> {
    let words = words_of(&rt, &["format", "words.disk", "8"])?;
    let mut input = b"".as_slice();
    let mut output = Vec::new(rt.alloc());
    let mut errors = Vec::new(rt.alloc());
    let status = run_words(
        &rt,
        rt.alloc(),
        &words,
        &mut input,
        &mut output,
        &mut errors,
    );
    fs::remove_file(&rt, "words.disk")?;
    assert!(rt; status == 0 && output.as_slice() == b"ok\n".as_slice() && errors.is_empty());
    Ok(())
}
