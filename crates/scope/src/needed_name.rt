// A needed name, with the name of the object that needs it.

ghost use Rattle.std.specs.Prelude.{◌≡◌, IfOk};

use names::Name;
use std::alloc::{AllocError, Global};
use std::marker::Model;

/// A name that an object needs, with the name of this object.
#[derive(Drop)]
pub struct NeededName {
    /// The name of the object that needs `name`.
    pub needer: Name,
    /// The needed name.
    pub name: Name,
}

impl Model for NeededName {
    ghost use Rattle.scope.specs.LoadOrder.{Need};

    ghost Value = { Need };

    ghost view = { λ n. record { needer = n.needer; name = n.name } };
}

impl NeededName {
    /// Returns a needed name with copies of `needer` and `name`.
    pub fn copy_of(alloc: Global, needer: &[u8], name: &[u8]) -> Result<NeededName, AllocError>
        ensures { IfOk result (λ need. need ≡ record { needer = needer.now; name = name.now }) }
    {
        Ok(NeededName {
            needer: Name::copy_of(alloc, needer)?,
            name: Name::copy_of(alloc, name)?,
        })
    }
}
