// Findings about installed libraries.
ghost use Rattle.std.specs.Prelude.{◌≡◌};

use hash_check::FileRefusal;

/// The result of a check of an installed library.
#[derive(Clone, Copy, PartialEq, Eq)]
pub enum Finding {
    /// The file is a library with the name of its entry.
    Sound,
    /// The file is damaged: a test refuses it as a library. The refusal is that of the first such
    /// test.
    Refused(FileRefusal),
    /// The file is damaged: it is a library with another name.
    OtherName,
    /// A read of the disk failed: S1 (Device).
    Unreadable,
}
