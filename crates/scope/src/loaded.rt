// An object in load order.

ghost use Rattle.std.specs.Prelude.{◌≡◌};
ghost use Rattle.elf_file.specs.Dynamic.{is_symbolic};
ghost use Rattle.scope.specs.Objects.{IsTaken};

use hash_check::Admitted;
use std::marker::Model;

/// An object in load order, with its name. This value also stores whether the object is symbolic,
/// so that the file isn't read again for each symbol. In contracts, the value is the name and the
/// file's bytes.
#[derive(Drop)]
pub(crate) struct LoadedObject<'a> {
    name: &'a [u8],
    object: &'a Admitted<'a>,
    symbolic: bool,
}

impl<'a> Model for LoadedObject<'a> {
    ghost use Rattle.std.specs.Prelude.{◌≡◌};
    ghost use Rattle.elf_file.specs.Dynamic.{is_symbolic};
    ghost use Rattle.scope.specs.Objects.{Named};

    ghost Value = { Named };

    ghost view = { λ o. record { name = o.name.now; file = o.object.now } };

    ghost invariant = { λ o. o.symbolic ≡ is_symbolic o.object.now };
}

impl<'a> LoadedObject<'a> {
    pub(crate) fn new(name: &'a [u8], object: &'a Admitted<'a>) -> LoadedObject<'a>
        ensures same { result ≡ record { name = name.now; file = object.now } }
        ensures taken { IsTaken object.now }
    {
        let symbolic = object.object().symbolic();
        LoadedObject {
            name,
            object,
            symbolic,
        }
    }

    pub(crate) fn name(&self) -> &'a [u8]
        ensures { result.now ≡ self.now.name }
    {
        self.name
    }

    pub(crate) fn object(&self) -> &'a Admitted<'a>
        ensures { result.now ≡ self.now.file }
    {
        self.object
    }

    /// Returns whether a lookup of a symbol to which the object refers begins with the object
    /// itself.
    pub(crate) fn is_symbolic(&self) -> bool
        ensures { result ≡ is_symbolic self.now.file }
    {
        self.symbolic
    }
}
