// Tests of `store`.

mod byte_strings;
mod disks;
mod each_call;
mod faults;
mod reads;
mod sectors;
mod seen;
