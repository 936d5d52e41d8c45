//! Tests of `commands`, `updates` and `registry` through their public calls, and of scripts over a
//! registry on a disk that lies. They test facts that no clause and no stored case shows.
#![tactic(auto)]

#[cfg(test)]
mod each_call;
#[cfg(test)]
mod every_line;
#[cfg(test)]
mod harms;
#[cfg(test)]
mod liars;
#[cfg(test)]
mod lines;
#[cfg(test)]
mod reading;
#[cfg(test)]
mod refused_binds;
#[cfg(test)]
mod runs;
#[cfg(test)]
mod script_streams;
#[cfg(test)]
mod sectors;
#[cfg(test)]
mod statuses;
#[cfg(test)]
mod streams;
#[cfg(test)]
mod together;
#[cfg(test)]
mod update_calls;
#[cfg(test)]
mod update_commits;
#[cfg(test)]
mod update_streams;
