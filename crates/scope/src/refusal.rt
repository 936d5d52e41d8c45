// The reasons why there is no load order.

ghost use Rattle.std.specs.Prelude.{Some};
ghost use Rattle.scope.specs.Refusal.{IsRefusal};

use crate::needed_name::NeededName;
use names::Name;
use std::alloc::{AllocError, Global};

/// The reason why there is no load order.
#[derive(Debug, Drop, PartialEq, Eq)]
pub enum OrderRefusal {
    /// An object needs a library that isn't installed.
    Missing {
        /// The name of the object that needs the library.
        needer: Name,
        /// The name of the library.
        name: Name,
    },
    /// Memory was refused.
    OutOfMemory,
}

impl From<AllocError> for OrderRefusal {
    ghost use Rattle.std.specs.Prelude.{◌≡◌};
    ghost use Rattle.scope.specs.declared.refusal.OrderRefusal.TheVariants.{OutOfMemory};

    ghost from_gives = { λ _ e. e ≡ OutOfMemory };

    fn from(_: AllocError) -> OrderRefusal {
        OrderRefusal::OutOfMemory
    }
}

impl OrderRefusal {
    /// Returns `Missing` with copies of the names, or `OutOfMemory` if memory for them was refused.
    pub(crate) fn missing(alloc: Global, needer: &[u8], name: &[u8]) -> OrderRefusal
        ensures { IsRefusal (Some (record { needer = needer.now; name = name.now })) result }
    {
        match NeededName::copy_of(alloc, needer, name) {
            Ok(NeededName { needer, name }) => OrderRefusal::Missing { needer, name },
            Err(_) => OrderRefusal::OutOfMemory,
        }
    }
}
