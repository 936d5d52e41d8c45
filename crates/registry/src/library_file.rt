// The file of a library that was read.
ghost use Rattle.std.specs.Prelude.{◌≡◌, ◌⊎◌, IfOk, IfErr};
ghost use Rattle.requests.specs.Binding.{object_of};
ghost use Rattle.requests.specs.Library.{IsLibrary};

use crate::admit::see_library;
use hash_check::Admitted;
use names::Name;
use scope::Library;
use std::alloc::Global;
use std::marker::Model;
use store::StoreRefusal;

/// The file of a library that was read from a disk. It was tested once: all tests accept it, and
/// its name is its SONAME. In contracts, the value is the library.
#[derive(Drop)]
pub(crate) struct LibraryFile {
    name: Name,
    bytes: Vec<u8>,
}

impl Model for LibraryFile {
    ghost use Rattle.requests.specs.Library.{IsLibrary};
    ghost use Rattle.states.specs.State.{Library};

    ghost Value = { Library };

    ghost view = { λ f. record { name = f.name; bytes = f.bytes.items } };

    ghost invariant = { λ f. IsLibrary (record { name = f.name; bytes = f.bytes.items }) };
}

impl LibraryFile {
    /// Makes a library file from `name` and `bytes`. Returns S5 (Damaged) if they aren't a library,
    /// and S11 (OutOfMemory) if memory is refused.
    pub(crate) fn new(
        alloc: Global,
        name: &[u8],
        bytes: Vec<u8>,
    ) -> Result<LibraryFile, StoreRefusal>
        ensures ok { IfOk result (λ file. file
            ≡ record { name = name.now; bytes = bytes.items }) }
        ensures library { IfOk result IsLibrary }
        ensures damaged { IfErr result (λ e. e ≡ StoreRefusal.Damaged
            → IsLibrary (record { name = name.now; bytes = bytes.items }) → ⊥) }
        ensures refusals { IfErr result (λ e. (e ≡ StoreRefusal.Damaged)
            ⊎ (e ≡ StoreRefusal.OutOfMemory)) }
    {
        see_library(alloc, name, &bytes)?;
        let name = Name::copy_of(alloc, name)?;
        Ok(LibraryFile { name, bytes })
    }

    /// Returns the library's name.
    pub(crate) fn name(&self) -> &[u8]
        ensures { result.now ≡ self.now.name }
    {
        self.name.as_bytes()
    }

    /// Returns the file as an admitted object. Takes as much time as `Object::of_accepted`.
    pub(crate) fn admitted(&self) -> Admitted<'_>
        ensures { result ≡ self.now.bytes }
    {
        Admitted::of_accepted(&self.bytes)
    }

    /// Returns the file as a library. Takes as much time as `Object::of_accepted`.
    pub(crate) fn library(&self) -> Library<'_>
        ensures { result ≡ object_of self.now }
    {
        Library {
            name: self.name.as_bytes(),
            object: self.admitted(),
        }
    }
}
