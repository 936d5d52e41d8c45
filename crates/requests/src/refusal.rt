// The reasons why a command is refused.

use hash_check::FileRefusal;
use image::BindRefusal;
use std::alloc::AllocError;

/// The reason why a command was refused.
#[derive(Debug, Drop, PartialEq, Eq)]
pub enum Refusal {
    /// C1: the file isn't a library.
    Object(FileRefusal),
    /// C2: a library with this name is installed.
    AlreadyInstalled,
    /// C3: no library with this name is installed.
    NotInstalled,
    /// C4: the library is a preload.
    InPreloads,
    /// C5: a name occurs twice.
    RepeatedPreload,
    /// C6: there are more than 16 names.
    TooManyPreloads,
    /// C7: each slot has a binder.
    NoSlot,
    /// C8: the slot has no binder.
    NoSuchBinder,
    /// B1 to B5: the program isn't bound, for this reason. The reason is never that memory was
    /// refused.
    Bind(BindRefusal),
    /// S1: a call of the disk failed.
    Device,
    /// S2: an earlier write or sync failed.
    Reopen,
    /// S5: the bytes that were read aren't a library with the expected name. On an honest disk, a
    /// registry never returns this refusal if its files were tested when it was opened.
    Damaged,
    /// S7: the file takes more sectors than are free, counting two more sectors if the list needs
    /// one more catalogue.
    Full,
    /// S8: the longest runs of unused sectors are too short for the file.
    Fragmented,
    /// S9: 2,048 libraries are installed.
    TooMany,
    /// S10: the generation already has its greatest value.
    GenerationEnd,
    /// S11: memory was refused.
    OutOfMemory,
}

impl From<AllocError> for Refusal {
    ghost use Rattle.std.specs.Prelude.{◌≡◌};
    ghost use Rattle.requests.specs.declared.refusal.Refusal.TheVariants.{OutOfMemory};

    ghost from_gives = { λ _ refusal. refusal ≡ OutOfMemory };

    fn from(_: AllocError) -> Refusal {
        Refusal::OutOfMemory
    }
}

impl From<BindRefusal> for Refusal {
    ghost use Rattle.std.specs.Prelude.{◌≡◌};
    ghost use Rattle.requests.specs.Binding.{of_bind};

    ghost from_gives = { λ e refusal. refusal ≡ of_bind e };

    fn from(refusal: BindRefusal) -> Refusal {
        match refusal {
            BindRefusal::OutOfMemory => Refusal::OutOfMemory,
            refusal => Refusal::Bind(refusal),
        }
    }
}
