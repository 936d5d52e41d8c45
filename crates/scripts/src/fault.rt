// The reason why a script can't be read or written any further.

ghost use Rattle.std.specs.Prelude.{◌≡◌};
ghost use Rattle.scripts.specs.declared.fault.ScriptFault.TheVariants.{OutOfMemory, Write};

use std::alloc::AllocError;
use text_output::WriteFault;
use thiserror::Error;

/// The reason why a part of a script wasn't read, or some of the answers weren't written.
#[derive(Clone, Copy, Debug, PartialEq, Eq, Error)]
pub enum ScriptFault {
    /// The reader failed.
    #[error("cannot read")]
    Read,
    /// The writer failed.
    #[error("cannot write")]
    Write,
    /// Memory was refused.
    #[error("out of memory")]
    OutOfMemory,
}

impl From<WriteFault> for ScriptFault {
    ghost from_gives = { λ _ fault. fault ≡ Write };

    fn from(_fault: WriteFault) -> ScriptFault {
        ScriptFault::Write
    }
}

impl From<AllocError> for ScriptFault {
    ghost from_gives = { λ _ fault. fault ≡ OutOfMemory };

    fn from(_refused: AllocError) -> ScriptFault {
        ScriptFault::OutOfMemory
    }
}
