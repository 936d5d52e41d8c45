// The reason why a library's bytes aren't returned.
use std::alloc::AllocError;

/// The reason why the bytes of a library aren't returned.
#[derive(Clone, Copy, PartialEq, Eq)]
pub enum Unread {
    /// No library with this name is installed.
    NotInstalled,
    /// A read of the disk failed: S1 (Device).
    Unreadable,
    /// Memory was refused: S11 (OutOfMemory).
    OutOfMemory,
}
