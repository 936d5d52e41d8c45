// Compares the answer to a case with the expected answer.

use crate::file::changed_file;
use anyhow::Result;

/// Returns whether `answer` is the expected one. `wanted` is `file FILE` for the bytes of a file,
/// `nothing` for no bytes, or otherwise a line.
pub(crate) fn is_wanted(rt: &HostRuntime, answer: &[u8], wanted: &str) -> Result<bool> {
    if let Some(file) = wanted.strip_prefix("file ") {
        return Ok(answer == changed_file(rt, file)?.as_slice());
    }
    if wanted == "nothing" {
        return Ok(answer.is_empty());
    }
    Ok(answer.strip_suffix(b"\n") == Some(wanted.as_bytes()))
}
