// Events of a registry with binders, and their replies.
use requests::{Command, Reply};

/// A command, or a step of a binder.
#[derive(Clone, Copy)]
pub enum Event<'a> {
    /// Applies a command.
    Apply(Command<'a>),
    /// Begins a binder.
    Begin {
        /// The bytes of the program's file.
        program: &'a [u8],
        /// The program's base address.
        base: u64,
    },
    /// Makes the next step of the binder in this slot.
    Advance(usize),
    /// Ends the binder in this slot.
    Cancel(usize),
}

/// The reply to an event.
#[derive(Drop)]
pub enum EventReply {
    /// The reply to a command, the last answer of a binder, Done for a cancelled binder, or a
    /// refusal.
    Replied(Reply),
    /// The slot of the new binder.
    Slot(usize),
    /// The binder has more steps to make.
    Going,
}
