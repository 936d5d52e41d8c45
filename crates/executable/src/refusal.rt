// The reasons why a bound program isn't written as an executable file.

use names::Name;
use std::alloc::AllocError;
use thiserror::Error;

/// The reason why an image isn't written as an executable file. The variants are in the order of
/// the tests.
#[derive(Debug, Drop, PartialEq, Eq, Error)]
pub enum ExecutableRefusal {
    /// `e_entry` is 0, or isn't in an executable segment of the program itself.
    #[error("the program has no entry in code of its own")]
    NoEntry,
    /// The program is a static PIE: it has DF_1_PIE, and no PT_INTERP.
    #[error("the program relocates itself, for which it looks for what the file lacks")]
    StaticPie,
    /// The program has a DT_PREINIT_ARRAY with entries, but no note that the program itself calls
    /// these functions.
    #[error("the program has pre-initializers, which nobody would run")]
    PreInitializers,
    /// A library has a DT_INIT, or a DT_INIT_ARRAY with entries, but the program has no note that
    /// the program itself calls such functions.
    #[error("a library has initializers, which nobody would run")]
    Initializers {
        /// The library's name.
        name: Name,
    },
    /// A library has a DT_FINI, or a DT_FINI_ARRAY with entries, but the program has no note that
    /// the program itself calls such functions.
    #[error("a library has finalizers, which nobody would run")]
    Finalizers {
        /// The library's name.
        name: Name,
    },
    /// The file would have more than 1,170 program headers.
    #[error("the image has more segments than the kernel takes")]
    TooManyHeaders,
    /// Memory may be written and executed, although no segment in it requests both.
    #[error("an object has memory that may be written and executed, which no file asks for")]
    WritableCode {
        /// The object's name.
        name: Name,
    },
    /// There are no free pages for the headers, neither from 0x10000 to the image's beginning nor
    /// after the image.
    #[error("there is no room for the headers")]
    NoPages,
    /// Memory was refused.
    #[error("memory was refused")]
    OutOfMemory,
}

impl From<AllocError> for ExecutableRefusal {
    ghost use Rattle.std.specs.Prelude.{◌≡◌};
    ghost use Rattle.executable.specs.declared.refusal.ExecutableRefusal.TheVariants.{OutOfMemory};

    ghost from_gives = { λ _ e. e ≡ OutOfMemory };

    fn from(_: AllocError) -> ExecutableRefusal {
        ExecutableRefusal::OutOfMemory
    }
}
