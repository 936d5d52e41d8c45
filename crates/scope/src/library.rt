// An installed library.

ghost use Rattle.std.specs.Prelude.{◌≡◌};

use hash_check::Admitted;
use std::marker::Model;

/// An installed library: its name and its object. In contracts, the value is the name and the
/// file's bytes.
#[derive(Drop)]
pub struct Library<'a> {
    pub name: &'a [u8],
    pub object: Admitted<'a>,
}

impl<'a> Model for Library<'a> {
    ghost use Rattle.scope.specs.Objects.{Named};

    ghost Value = { Named };

    ghost view = { λ l. record { name = l.name.now; file = l.object } };
}

impl<'a> Library<'a> {
    /// The name of the library.
    pub fn name(&self) -> &'a [u8]
        ensures { result.now ≡ self.now.name }
    {
        self.name
    }

    /// The library's object.
    pub fn object(&self) -> &Admitted<'a>
        ensures { result.now ≡ self.now.file }
    {
        &self.object
    }
}
