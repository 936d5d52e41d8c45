// Finds the preloads of a case among the case's libraries.

use anyhow::{Context, Result};
use scope::Library;
use std::alloc::Global;

/// Returns the number of the library with this name.
fn number_of(libraries: &[Library<'_>], name: &str) -> Option<usize> {
    for (number, library) in libraries.iter().enumerate() {
        if library.name() == name.as_bytes() {
            return Some(number);
        }
    }
    None
}

/// Returns the numbers of the libraries with these names, which are separated by spaces in `names`.
pub(crate) fn preloads_of(
    alloc: Global,
    libraries: &[Library<'_>],
    names: &str,
) -> Result<Vec<usize>> {
    let mut numbers = Vec::new(alloc);
    for name in names.split_whitespace() {
        numbers.push(number_of(libraries, name).context(format_args!("no library {name}"))?)?;
    }
    Ok(numbers)
}
