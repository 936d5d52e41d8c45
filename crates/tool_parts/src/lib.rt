//! The output and the messages of the forms of `rlibreg-tool`: the bytes of the output and of
//! standard error before and after, and the lines that several forms write to standard error.
#![tactic(auto)]

mod said;

pub use said::{cannot_write, say_refusal};
