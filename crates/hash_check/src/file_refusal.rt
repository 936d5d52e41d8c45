// The reasons why a file is refused.

use elf_dynamic::ObjectRefusal;

/// The reason why a file is refused: the first of all tests on files that applies.
#[derive(Clone, Copy, Debug, PartialEq, Eq)]
pub enum FileRefusal {
    /// E1 to E27 and E30 to E33: the tests of an object that need no memory.
    Object(ObjectRefusal),
    /// E28: two exported symbols share a name.
    DuplicateDefinition,
    /// E29: the hash table can't be trusted.
    BadHashTable,
}

/// The reason why a file isn't read as an admitted object.
#[derive(Clone, Copy, Debug, PartialEq, Eq)]
pub enum ReadRefusal {
    /// A test refuses the file. The refusal is that of the first test that applies.
    File(FileRefusal),
    /// The memory that admission needs was refused.
    OutOfMemory,
}

impl From<ObjectRefusal> for ReadRefusal {
    ghost use Rattle.std.specs.Prelude.{◌≡◌};
    ghost use Rattle.hash_check.specs.declared.file_refusal.FileRefusal.TheVariants.{Object};
    ghost use Rattle.hash_check.specs.declared.file_refusal.ReadRefusal.TheVariants.{File};

    ghost from_gives = { λ refusal e. e ≡ File (Object refusal) };

    fn from(refusal: ObjectRefusal) -> ReadRefusal {
        ReadRefusal::File(FileRefusal::Object(refusal))
    }
}
