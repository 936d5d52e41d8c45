// Tests of a disk over a file: compared with a disk in memory, over files that fail, and over files
// of the system.
mod against_memory;
mod failures;
mod fake;
mod system;
