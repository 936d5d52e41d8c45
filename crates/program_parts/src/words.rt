// Reads the arguments of a process.

use std::rt::Env;
use std::{env, io};

/// Returns the arguments of the process after the program's name. The error has the kind
/// `OutOfMemory` if memory was refused, and another kind if an argument isn't UTF-8.
pub fn read_arguments<R: Env + AllocGlobal>(rt: &R) -> io::Result<Vec<String>> {
    let mut words = Vec::new(rt.alloc());
    for word in env::args(rt)?.skip(1) {
        words.push(word)?;
    }
    Ok(words)
}
