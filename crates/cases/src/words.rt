// Runs a command line, and compares its output and its exit status with the expected ones.

use crate::answer::is_wanted;
use crate::number::first_number;
use anyhow::Result;
use std::alloc::Global;

/// The program that a command line runs.
#[derive(Clone, Copy)]
pub(crate) enum Program {
    /// `rlibreg`.
    Registry,
    /// `rlibreg-tool`.
    Tool,
}

/// Runs a program, and returns its exit status.
fn run_words(
    rt: &HostRuntime,
    program: Program,
    words: &[String],
    input: &mut &[u8],
    output: &mut Vec<u8>,
    errors: &mut Vec<u8>,
) -> u8 {
    match program {
        Program::Registry => commands::run_words(rt, rt.alloc(), words, input, output, errors),
        Program::Tool => tool_commands::run_words(rt, rt.alloc(), words, input, output, errors),
    }
}

/// Returns the words of a command line. In `words` there is a space before each word.
fn listed(alloc: Global, words: &str) -> Result<Vec<String>> {
    let mut list = Vec::new(alloc);
    for word in words.split(' ').skip(1) {
        list.push(String::from_str(alloc, word)?)?;
    }
    Ok(list)
}

/// Returns whether the status and the output are the ones that `wanted` describes.
fn is_ended(
    rt: &HostRuntime,
    status: u8,
    output: &[u8],
    errors: &[u8],
    wanted: &str,
) -> Result<bool> {
    let (wanted_status, answer) = first_number(wanted)?;
    if wanted_status != u64::from(status) {
        return Ok(false);
    }
    match answer.strip_prefix("error ") {
        Some(line) => Ok(output.is_empty() && is_wanted(rt, errors, line)?),
        None => Ok(errors.is_empty() && is_wanted(rt, output, answer)?),
    }
}

/// Returns whether a command line with this input ends as `wanted` says. With `STATUS ANSWER` it
/// has to write ANSWER to the output, and nothing to standard error. With `STATUS error ANSWER` it
/// has to write ANSWER to standard error only.
pub(crate) fn ends_so(
    rt: &HostRuntime,
    program: Program,
    words: &str,
    input: &[u8],
    wanted: &str,
) -> Result<bool> {
    let list = listed(rt.alloc(), words)?;
    let mut input = input;
    let mut output = Vec::new(rt.alloc());
    let mut errors = Vec::new(rt.alloc());
    let status = run_words(rt, program, &list, &mut input, &mut output, &mut errors);
    is_ended(rt, status, &output, &errors, wanted)
}
