//! Formats text, and passes it to a writer through a buffer.
//!
//! `OutputBuffer` is a buffer on the stack for bytes that wait for a writer. It formats numbers,
//! addresses, names, and lines of hexadecimal digits. It allocates nothing. `write_name` writes one
//! name.
#![tactic(auto)]

mod buffer;
mod decimal;
mod fault;
mod hexadecimal;
mod name;
mod piece;
mod zeros;

pub use buffer::{OutputBuffer, PIECE};
pub use fault::WriteFault;
pub use name::{LINE, write_name};
pub use piece::{LONGEST, PieceBuffer};
