//! Tests of the libraries below the registry, through their public calls. They test facts that no
//! clause and no stored case shows.
#![tactic(auto)]

#[cfg(test)]
mod disks;
#[cfg(test)]
mod files;
#[cfg(test)]
mod stores;
