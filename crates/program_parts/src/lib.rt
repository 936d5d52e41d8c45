//! The parts that the programs of a registry share: exit statuses, the arguments and standard
//! streams of a process, and reads of whole files. They also share messages on standard error, and
//! the texts of replies and refusals.
#![tactic(auto)]

mod base;
mod bind_refusal;
mod file;
mod message;
mod refusal;
mod reply;
mod status;
mod streams;
mod words;

pub use base::parse_base;
pub use bind_refusal::write_refusal;
pub use file::{FileFault, read_all, read_file};
pub use message::{cannot_hold, cannot_read, say};
pub use refusal::{
    Line, put_disk_refusal, put_file_refusal, write_disk_refusal, write_file_refusal,
};
pub use reply::{put_reply, write_reply};
pub use status::Status;
pub use streams::{Behind, StandardStreams, behind_streams};
pub use words::read_arguments;
