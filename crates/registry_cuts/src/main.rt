//! The program `registry_cuts`: cuts the power of registries at every call of their disk, and opens
//! every mixture that a cut leaves. It compares the listing and the binds of each mixture with
//! those of the states that are allowed.
//!
//! The arguments of the command line name the files that have the program's rows. The README of
//! this crate describes their format.
#![tactic(auto)]

mod allowed;
mod answer;
mod course;
mod cut;
mod event;
mod mixture;
mod plain;
mod rounds;
mod row;
mod run;
mod seen;
mod sides;
mod tally;
mod task;
mod trial;
mod upgrades;
mod wanted;

use anyhow::Result;
use row::run_file;
use std::env;
use tally::Tally;

fn main(rt: HostRuntime) -> Result<()> {
    let (mut all, mut all_wrong) = (0u64, 0u64);
    for file in env::args(&rt)?.skip(1) {
        let mut tally = Tally::new(&rt);
        run_file(&mut tally, file.as_str())?;
        let (openings, wrong) = (tally.openings, tally.wrong);
        if tally.on_purpose {
            println!(rt; "{file}: {openings} openings, {wrong} wrong on purpose")?;
        } else {
            println!(rt; "{file}: {openings} openings, {wrong} wrong")?;
            all = all.saturating_add(openings);
            all_wrong = all_wrong.saturating_add(wrong);
        }
    }
    println!(rt; "total: {all} openings, {all_wrong} wrong")?;
    Ok(())
}
