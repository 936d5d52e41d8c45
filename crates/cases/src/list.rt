// Runs the cases of a list.

use crate::case::stands;
use crate::file::text_of_file;
use crate::number::parse_number;
use anyhow::{Context, Result};

/// The number of cases that were run, and the number of cases with an unexpected answer.
#[derive(Default, Drop)]
pub(crate) struct Tally {
    pub(crate) count: u64,
    pub(crate) differ: u64,
}

/// Runs a case. If the answer isn't the expected one, prints the case.
fn run_case(rt: &HostRuntime, list: &str, case: &str, tally: &mut Tally) -> Result<()> {
    tally.count = tally.count.saturating_add(1);
    match stands(rt, case) {
        Ok(true) => Ok(()),
        Ok(false) => {
            tally.differ = tally.differ.saturating_add(1);
            println!(rt; "{list} differs: {case}")?;
            Ok(())
        }
        Err(error) => Err(error.context(format_args!("{list}: {case}"))),
    }
}

/// Runs a case for each length of a cut file. `front` is `CALL cut=FIRST`, and `rest`, after two
/// dots, is `LAST ANSWER`.
fn run_cuts(
    rt: &HostRuntime,
    list: &str,
    front: &str,
    rest: &str,
    tally: &mut Tally,
) -> Result<()> {
    let (call, first) = front.rsplit_once("cut=").context("a range of no cut")?;
    let (last, answer) = rest.split_once(' ').context("a range without a base")?;
    for length in parse_number(first)?..=parse_number(last)? {
        let case = format!(in rt.alloc(); "{call}cut={length} {answer}")?;
        run_case(rt, list, &case, tally)?;
    }
    Ok(())
}

/// Runs the case in a line. If the line has `cut=FIRST..LAST`, runs a case for each of these
/// lengths.
fn run_line(rt: &HostRuntime, list: &str, line: &str, tally: &mut Tally) -> Result<()> {
    match line.split_once("..") {
        Some((front, rest)) => run_cuts(rt, list, front, rest, tally),
        None => run_case(rt, list, line, tally),
    }
}

/// Runs the cases of a list, one in each line. Skips empty lines, and lines that begin with #.
pub(crate) fn run_list(rt: &HostRuntime, name: &str, tally: &mut Tally) -> Result<()> {
    let text = text_of_file(rt, "the list", name)?;
    for line in text.lines() {
        if !line.is_empty() && !line.starts_with('#') {
            run_line(rt, name, line, tally)?;
        }
    }
    Ok(())
}
