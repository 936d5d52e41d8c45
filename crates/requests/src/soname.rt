// The name under which a file is installed.

ghost use Rattle.std.specs.Prelude.{◌≡◌, None, IfOk, IfErr, OnOk};
ghost use Rattle.hash_check.specs.FileRefusal.{ReadNeedsMemory};
ghost use Rattle.requests.specs.Library.{library_refusal, name_of, IsLibrary};
ghost use Rattle.requests.specs.Reading.{IsLibraryRefusal};

use crate::refusal::Refusal;
use hash_check::{Admitted, FileRefusal, ReadRefusal};
use std::alloc::Global;

/// Reads a file, admits it as a library, and returns the library's name. Refuses with C1 or S11.
/// Takes as much time as `Admitted::read`.
pub fn library_name<'a>(alloc: Global, file: &'a [u8]) -> Result<&'a [u8], Refusal>
    ensures ok { OnOk result (library_refusal file.now ≡ None) }
    ensures name { IfOk result (λ name. name.now ≡ name_of file.now) }
    ensures library { IfOk result (λ name.
        IsLibrary (record { name = name.now; bytes = file.now })) }
    ensures memory { OnOk result (ReadNeedsMemory file.now) }
    ensures refused { IfErr result (IsLibraryRefusal file.now) }
{
    match Admitted::read(alloc, file) {
        Ok(admitted) => match admitted.library_name() {
            Ok(name) => Ok(name),
            Err(refusal) => Err(Refusal::Object(FileRefusal::Object(refusal))),
        },
        Err(ReadRefusal::File(refusal)) => Err(Refusal::Object(refusal)),
        Err(ReadRefusal::OutOfMemory) => Err(Refusal::OutOfMemory),
    }
}
