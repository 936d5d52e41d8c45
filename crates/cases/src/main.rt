//! The program `cases`: runs the cases of its lists, and prints each case whose answer isn't the
//! expected one.
//!
//! A list is a text file; docs/CASES.md has its format. The arguments of the command line are the
//! names of the lists.
#![tactic(auto)]

mod answer;
mod bind;
mod case;
mod disk;
mod file;
mod library;
mod list;
mod number;
mod preload;
mod script;
mod shelf;
mod view;
mod words;

use anyhow::Result;
use list::{Tally, run_list};
use std::env;

fn main(rt: HostRuntime) -> Result<()> {
    let mut tally = Tally::default();
    for list in env::args(&rt)?.skip(1) {
        run_list(&rt, list.as_str(), &mut tally)?;
    }
    let Tally { count, differ } = tally;
    println!(rt; "{count} cases, {differ} differ")?;
    Ok(())
}
