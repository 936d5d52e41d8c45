//! Finds out whether a block device is in use, as Linux reports in /proc and /sys.
#![tactic(auto)]

mod device;
mod folder;
mod numbers;

pub use device::is_in_use;
