// Runs a script, and compares its output, its number of lines and its number of refused lines with
// the expected ones.

use crate::answer::is_wanted;
use crate::file::changed_file;
use crate::number::first_number;
use anyhow::{Result, bail};
use binders::Binders;
use commands::{Summary, run_script};
use registry::Registry;
use sector_disk::Memory;
use std::alloc::Global;

/// Runs a script on an empty registry on a disk of `sectors` sectors.
fn summary_of(alloc: Global, sectors: u64, script: &[u8], output: &mut Vec<u8>) -> Result<Summary> {
    let disk = Memory::new(alloc, u32::try_from(sectors)?)?;
    let Ok(registry) = Registry::format(alloc, disk) else {
        bail!("no registry");
    };
    let mut script = script;
    let mut binders = Binders::new(alloc, registry);
    let ended = run_script(alloc, &mut script, output, &mut binders);
    let _ = binders.into_registry().into_disk();
    Ok(ended?)
}

/// Returns whether the numbers and the output of a script are those that `wanted` describes.
fn is_ended(
    rt: &HostRuntime,
    lines: u64,
    refused: u64,
    output: &[u8],
    wanted: &str,
) -> Result<bool> {
    let (wanted_lines, rest) = first_number(wanted)?;
    let (wanted_refused, answer) = first_number(rest)?;
    Ok(wanted_lines == lines && wanted_refused == refused && is_wanted(rt, output, answer)?)
}

/// Returns whether a script ends as `wanted` says. `words` is `SECTORS FILE`: the script in FILE
/// runs on an empty registry on a disk of SECTORS sectors. `wanted` is `LINES REFUSED ANSWER`.
pub(crate) fn runs_so(rt: &HostRuntime, words: &str, wanted: &str) -> Result<bool> {
    let (sectors, file) = first_number(words)?;
    let text = changed_file(rt, file)?;
    let mut output = Vec::new(rt.alloc());
    let summary = summary_of(rt.alloc(), sectors, &text, &mut output)?;
    is_ended(rt, summary.lines, summary.refused, &output, wanted)
}
