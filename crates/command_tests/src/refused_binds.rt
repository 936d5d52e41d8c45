// Tests the number of sectors that a bind reads before it is refused because a library is missing.
// A bind reads each library of the program's load order once.
use image::BindRefusal;
use registry::Registry;
use requests::{Command, Refusal, Reply};
use samples::{named, needing_file};
use sector_disk::{Fuse, Memory};
use std::alloc::Global;

// The tag, in `d_tag`, of a library's own name.
const SONAME: u64 = 14;

// A library: its name, the libraries that it needs, and the number of sectors of its file.
type Made = (u8, &'static [u8], usize);

// A case has a registry's libraries and preloads; the libraries that a program needs, and the one
// of them that is missing; the number of the disk's calls that an opening makes, and the number of
// sectors that the program's bind reads. An opening makes a sync and reads two roots, the
// catalogue, and the entry and the sectors of each file.
struct Case {
    libraries: &'static [Made],
    preloads: &'static [&'static [u8]],
    needs: &'static [u8],
    missing: u8,
    opening: u64,
    reads: u64,
}

static CASES: [Case; 2] = [
    Case {
        libraries: &[(b'a', b"ce", 1), (b'b', b"", 2)],
        preloads: &[],
        needs: b"adb",
        missing: b'd',
        opening: 9,
        reads: 3,
    },
    // A preload whose needed library is missing, after a preload whose needed library isn't.
    Case {
        libraries: &[(b'a', b"z", 1), (b'b', b"a", 1)],
        preloads: &[b"b", b"a"],
        needs: b"p",
        missing: b'p',
        opening: 8,
        reads: 2,
    },
];

// Installs a library of a case. Returns whether that succeeds.
fn install(alloc: Global, kept: &mut Registry<Memory>, made: &Made) -> bool {
    let (name, needs, sectors) = made;
    match needing_file(
        alloc,
        needs,
        &named(SONAME, *name),
        sectors.wrapping_mul(512),
    ) {
        Ok(file) => matches!(kept.apply(&Command::Install(&file)), Reply::Done),
        Err(_) => false,
    }
}

// Makes a disk with the registry of a case.
fn on_disk(alloc: Global, case: &Case) -> Option<Memory> {
    let Ok(mut kept) = Registry::format(alloc, Memory::new(alloc, 64).ok()?) else {
        return None;
    };
    let mut done = true;
    for made in case.libraries {
        done &= install(alloc, &mut kept, made);
    }
    done &= matches!(
        kept.apply(&Command::SetPreloads(case.preloads)),
        Reply::Done
    );
    let disk = kept.into_disk();
    if done { Some(disk) } else { None }
}

// Returns the replies to two binds of a case's program, on a disk whose call number `call` fails.
fn told(alloc: Global, case: &Case, call: u64) -> Option<(Reply, Reply)> {
    let program = needing_file(alloc, case.needs, b"", 0).ok()?;
    let disk = Fuse::new(on_disk(alloc, case)?, call, false, false);
    let Ok(mut registry) = Registry::open(alloc, disk) else {
        return None;
    };
    let bind = Command::Bind {
        program: &program,
        base: 0x10000,
    };
    let replies = (registry.apply(&bind), registry.apply(&bind));
    let _ = registry.into_disk();
    Some(replies)
}

// Returns whether a bind was refused because the program needs `library`, which isn't installed.
fn lacks(reply: &Reply, library: u8) -> bool {
    match reply {
        Reply::Refused(Refusal::Bind(BindRefusal::Missing { needer, name })) => {
            needer.as_bytes() == b"/program".as_slice() && name.as_bytes() == [library].as_slice()
        }
        _ => false,
    }
}

// Returns whether the first of two binds returns S1 (Device). If it does, the second must return B3
// (Missing); otherwise the first must return B3.
fn is_failed(first: &Reply, again: &Reply, missing: u8) -> Option<bool> {
    if lacks(first, missing) {
        return Some(false);
    }
    let is_told = matches!(first, Reply::Refused(Refusal::Device));
    (is_told && lacks(again, missing)).then_some(true)
}

// Returns whether a bind returns S1 on a disk whose call number `call` after the opening fails.
fn fails(alloc: Global, case: &Case, call: u64) -> Option<bool> {
    let (first, again) = told(alloc, case, case.opening.wrapping_add(call))?;
    is_failed(&first, &again, case.missing)
}

// Returns whether a bind reads exactly the number of sectors that a case has.
fn reads(alloc: Global, case: &Case) -> bool {
    let mut same = true;
    for call in 1..10 {
        same &= fails(alloc, case, call) == Some(call <= case.reads);
    }
    same
}

#[test]
fn a_bind_that_lacks_a_library_reads_what_it_needs_once(rt: HostRuntime) {
    for case in &CASES {
        assert!(rt; reads(rt.alloc(), case));
    }
}
