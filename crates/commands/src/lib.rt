//! The work of the program `rlibreg` with arguments, lines and files, as a library.
//!
//! `run_image` and `run_script` work on bytes, readers and writers, and their contracts define the
//! texts that they write. `run_request`, `run_format`, `run_upgrade` and `run_disk_script` work on
//! any disk. `run_words` reads the arguments of a command line, opens files, passes them to these
//! calls, and returns the exit status. `run_arguments` does the same with the arguments of the
//! process.
#![tactic(auto)]

mod access;
mod action;
mod answer;
mod arguments;
mod asked;
mod command;
mod disk;
mod disk_answer;
mod disk_script;
mod event_reply;
mod form;
mod making;
mod message;
mod on_disk;
mod request;
mod script;
mod script_on_disk;
mod sectors;
mod show;
mod status;
mod summary;
mod takes_events;
mod unread;
mod watched;
mod with_file;

pub use action::{Action, read_words};
pub use answer::Answer;
pub use arguments::run_arguments;
pub use command::run_words;
pub use disk_answer::write_disk_answer;
pub use disk_script::run_script_on_disk;
pub use making::{run_format, run_upgrade};
pub use program_parts::Status;
pub use request::run_request;
pub use script::run_script;
pub use script_on_disk::run_disk_script;
pub use scripts::ScriptFault;
pub use show::{Shown, run_image};
pub use summary::Summary;
pub use takes_events::TakesEvents;
