// The reasons why an object isn't admitted.

use std::alloc::AllocError;

/// The reason why an object isn't admitted.
#[derive(Clone, Copy, Debug, PartialEq, Eq)]
pub enum AdmitRefusal {
    /// E28: two exported symbols share a name.
    DuplicateDefinition,
    /// E29: the hash table has no bucket, or a word that isn't the index of a symbol; or a walk
    /// from a bucket doesn't end; or an exported symbol isn't on the walk from the bucket of its
    /// name's hash.
    BadHashTable,
    /// The memory that the tests need was refused.
    OutOfMemory,
}

impl From<AllocError> for AdmitRefusal {
    ghost use Rattle.std.specs.Prelude.{◌≡◌};
    ghost use Rattle.hash_check.specs.declared.refusal.AdmitRefusal.TheVariants.{OutOfMemory};

    ghost from_gives = { λ _ e. e ≡ OutOfMemory };

    fn from(_: AllocError) -> AdmitRefusal {
        AdmitRefusal::OutOfMemory
    }
}
