// The answer to `List`.

use names::Name;
use std::marker::Model;

/// The libraries and preloads of a registry. In contracts, the value is these two lists.
#[derive(Debug, Drop)]
pub struct Listing {
    /// The name of each library, and the length of its file in bytes, in the order of installation.
    pub libraries: Vec<(Name, u32)>,
    /// The names of the preloads, in their order.
    pub preloads: Vec<Name>,
}

impl Model for Listing {
    ghost use Rattle.requests.specs.Table.{Listed};

    ghost Value = { Listed };

    ghost view = { λ l. record { libraries = l.libraries.items; preloads = l.preloads.items } };
}
