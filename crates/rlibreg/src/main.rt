//! The program `rlibreg`: keeps a registry of shared libraries on a disk, and prints the memory
//! image of a program that is bound with them, or a numbered refusal.
#![tactic(auto)]

use commands::run_arguments;
use program_parts::{StandardStreams, cannot_hold, read_arguments};
use std::process::ExitCode;

fn main(rt: HostRuntime) -> ExitCode {
    let mut input = rt.stdin();
    let mut output = rt.stdout();
    let mut errors = rt.stderr();
    let streams = match StandardStreams::hold(&rt) {
        Ok(streams) => streams,
        Err(_) => return ExitCode::from(cannot_hold(&mut errors, "rlibreg")),
    };
    let words = read_arguments(&rt);
    let status = run_arguments(&rt, rt.alloc(), words, &mut input, &mut output, &mut errors);
    streams.release();
    ExitCode::from(status)
}
