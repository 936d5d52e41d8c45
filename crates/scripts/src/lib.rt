//! The lines of a script: how a program reads them, and the commands that they request.
//!
//! `next_line` reads the next line. Before it reads more bytes from its reader, it sends the
//! buffered answers. `parse_command` returns the command that a line requests. A program reads its
//! other forms of lines with `behind` and `program_behind`. `put_line_refusal` appends the texts of
//! L1 (BadLine) and L2 (CutLine).
#![tactic(auto)]

mod command;
mod fault;
mod hexadecimal;
mod line_refusal;
mod next;
mod reading;
mod word;

pub use command::{AskedCommand, behind, parse_command, program_behind};
pub use fault::ScriptFault;
pub use line_refusal::{LineRefusal, put_line_refusal};
pub use next::next_line;
pub use reading::Got;
