// Opens registries on disks that lie, runs a script over each, and compares the results with the
// expected ones.
ghost use Rattle.std.specs.Prelude.{◌<◌};

use crate::every_line::{LINES, are_answers, script};
use crate::harms::{NEW_ROWS, ROWS, Row, Wanted};
use crate::script_streams::summary;
use crate::sectors::{Sectors, harmed, one_library};
use binders::Binders;
use commands::{ScriptFault, Summary, run_script_on_disk};
use registry::Registry;
use sector_disk::Liar;
use std::alloc::Global;
use store::StoreRefusal;

// Makes a disk of eight sectors that returns the sectors `sectors` one after the other, for any
// sequence of reads, with sectors number 2 and `other` exchanged. After the reads of an opening, it
// returns zeros.
fn liar(alloc: Global, sectors: &Sectors, other: usize) -> Option<Liar>
    requires { other < 8 }
{
    let mut answers = *sectors;
    answers[2] = sectors[other];
    answers[other] = sectors[2];
    Some(Liar::new(8, Vec::from_slice(alloc, &answers).ok()?))
}

// The registry on a disk that lies, or the refusal.
type Made = Result<Registry<Liar>, (StoreRefusal, Liar)>;

// Opens the registry of version 2 on a disk, or upgrades the registry of version 1.
fn found(alloc: Global, version: u8, disk: Liar) -> Made {
    if version == 1 {
        Registry::upgrade(alloc, disk)
    } else {
        Registry::open(alloc, disk)
    }
}

// Runs a script over a registry, and returns its summary and its output.
fn run(
    alloc: Global,
    registry: Registry<Liar>,
    script: &[u8],
    output: &mut Vec<u8>,
) -> Result<Summary, ScriptFault> {
    let mut binders = Binders::new(alloc, registry);
    let mut reader = script;
    let ended = run_script_on_disk(alloc, &mut reader, output, &mut binders);
    let _ = binders.into_registry().into_disk();
    ended
}

// Returns whether a script over this registry has exactly the expected answers.
fn is_answered_so(alloc: Global, registry: Registry<Liar>, script: &[u8], wanted: Wanted) -> bool {
    let mut output = Vec::new(alloc);
    let ended = run(alloc, registry, script, &mut output);
    match wanted {
        Ok((first, refused)) => ended == Ok(summary(LINES, refused)) && are_answers(&output, first),
        Err(_) => false,
    }
}

// Returns whether the disk is refused as expected, or the script is answered as expected.
fn ends(alloc: Global, made: Made, script: &[u8], wanted: Wanted) -> bool {
    match made {
        Ok(registry) => is_answered_so(alloc, registry, script, wanted),
        Err((refusal, _disk)) => wanted == Err(refusal),
    }
}

// Returns whether the three liars with these sectors end as expected. The third read of an opening
// of version 2 is the catalogue, which is in sector 4. The third read of an upgrade of version 1 is
// the entry, which is in sector 3.
fn lies(
    alloc: Global,
    version: u8,
    sectors: &Sectors,
    script: &[u8],
    wanted: &[Wanted; 3],
) -> Option<bool> {
    let third = if version == 1 { 3 } else { 4 };
    let cut = found(alloc, version, liar(alloc, sectors, 2)?);
    let is_cut = ends(alloc, cut, script, wanted[0]);
    let read = found(alloc, version, liar(alloc, sectors, third)?);
    let is_read = ends(alloc, read, script, wanted[1]);
    let fresh = Registry::format(alloc, liar(alloc, sectors, 2)?);
    Some(ends(alloc, fresh, script, wanted[2]) && is_cut && is_read)
}

// Returns whether all rows of a version end as expected.
fn all_lie(alloc: Global, version: u8, rows: &[Row]) -> Option<bool> {
    let script = script(alloc).ok()?;
    let sectors = one_library(version);
    let mut all = true;
    for &(harms, wanted) in rows {
        let sectors = harmed(&sectors, harms);
        all &= lies(alloc, version, &sectors, script.as_bytes(), wanted) == Some(true);
    }
    Some(all)
}

#[test]
fn a_liar_is_refused_or_answers_a_script(rt: HostRuntime) {
    assert!(rt; all_lie(rt.alloc(), 1, &ROWS) == Some(true));
    assert!(rt; all_lie(rt.alloc(), 2, &ROWS) == Some(true));
    assert!(rt; all_lie(rt.alloc(), 2, &NEW_ROWS) == Some(true));
}
