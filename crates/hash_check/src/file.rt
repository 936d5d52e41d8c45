// Reads a file as an admitted object.

ghost use Rattle.std.specs.Prelude.{◌≡◌, None, IfOk, IfErr, OnOk};
ghost use Rattle.hash_check.specs.FileRefusal.{first_file_refusal, IsReadRefusal};

use crate::admitted::Admitted;
use crate::file_refusal::{FileRefusal, ReadRefusal};
use crate::refusal::AdmitRefusal;
use elf_dynamic::Object;
use std::alloc::Global;

impl<'a> Admitted<'a> {
    /// Reads a file and admits it, or returns the refusal of the first of all tests that applies.
    /// Takes as much time and memory as `Object::read` and `Admitted::admit` together.
    #[tactic(auto, using(crate::proofs::Reading::first_refusals))]
    pub fn read(alloc: Global, file: &'a [u8]) -> Result<Admitted<'a>, ReadRefusal>
        ensures ok { OnOk result (first_file_refusal file.now ≡ None) }
        ensures same { IfOk result (λ admitted. admitted ≡ file.now) }

        // Returns OutOfMemory only if admission may need memory.
        ensures refused { IfErr result (IsReadRefusal file.now) }
    {
        match Admitted::admit(alloc, Object::read(file)?) {
            Ok(admitted) => Ok(admitted),
            Err(AdmitRefusal::DuplicateDefinition) => {
                Err(ReadRefusal::File(FileRefusal::DuplicateDefinition))
            }
            Err(AdmitRefusal::BadHashTable) => Err(ReadRefusal::File(FileRefusal::BadHashTable)),
            Err(AdmitRefusal::OutOfMemory) => Err(ReadRefusal::OutOfMemory),
        }
    }
}
