//! The program `rlibreg-tool`: reports the contents of a registry's disk, returns a library's
//! bytes, writes a script that makes the same registry again, repairs a registry with damaged
//! libraries, and makes several changes at once.
#![tactic(auto)]

use program_parts::{StandardStreams, cannot_hold, read_arguments};
use std::process::ExitCode;
use tool_commands::run_arguments;

fn main(rt: HostRuntime) -> ExitCode {
    let mut input = rt.stdin();
    let mut output = rt.stdout();
    let mut errors = rt.stderr();
    let streams = match StandardStreams::hold(&rt) {
        Ok(streams) => streams,
        Err(_) => return ExitCode::from(cannot_hold(&mut errors, "rlibreg-tool")),
    };
    let words = read_arguments(&rt);
    let status = run_arguments(&rt, rt.alloc(), words, &mut input, &mut output, &mut errors);
    streams.release();
    ExitCode::from(status)
}
