//! The work of the program `rlibreg-tool`, as functions that other programs can call.
//!
//! `run_info`, `run_check`, `run_digest`, `run_file` and `run_dump` report the contents of a disk:
//! the numbers of the registry, the findings for the files, the digests of the files, the bytes of
//! one library, and the script that makes the same registry again.
//!
//! `run_form` opens any disk and calls one of these functions. `run_request` applies a command to a
//! disk's registry, even if some files aren't libraries, and writes the reply in the way that
//! `Telling` determines. `run_bindings` writes the bindings of a program's symbols.
//!
//! `run_words` reads the arguments of a command line, opens the disk's file and carries out the
//! action. `run_arguments` does the same with the arguments of the process. The crate `updates`
//! runs an update.
#![tactic(auto)]

mod arguments;
mod bound;
mod check;
mod command;
mod digest;
mod digest_line;
mod dump;
mod file;
mod finding;
mod form;
mod hexadecimal;
mod info;
mod on_file;
mod request;
mod run;
mod said;
mod sound;
mod stream;
mod symbols;
mod telling;
mod with_file;

pub use arguments::run_arguments;
pub use check::run_check;
pub use command::run_words;
pub use digest::run_digest;
pub use dump::run_dump;
pub use file::run_file;
pub use form::{Action, Asked, Form, Purpose, read_words};
pub use info::run_info;
pub use request::run_request;
pub use run::run_form;
pub use symbols::run_bindings;
pub use telling::Telling;
