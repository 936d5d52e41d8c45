// Makes level 0 of the load order.

ghost use Rattle.std.specs.Prelude.{◌≡◌, ◌<◌, ◌+◌, ◌^◌, IfOk, nat_eq};
ghost use Rattle.std.specs.List.{All, IsDistinct};
ghost use Rattle.scope.specs.LoadOrder.{level_0};

use crate::places::Places;
use std::alloc::{AllocError, Global};

/// Returns a queue that has level 0: the program and the preloads. `preloads` has the preloads'
/// numbers in the list of libraries. The queue has places for the program and `count` libraries.
pub fn first_level(alloc: Global, count: usize, preloads: &[usize]) -> Result<Places, AllocError>
    requires room { count + 1 < 2 ^ 64 }
    requires preloads { All (λ p. p < count) preloads.now }
    requires distinct { IsDistinct nat_eq preloads.now }
    ensures { IfOk result (λ q. q ≡ record { limit = count + 1; places = level_0 preloads.now }) }
{
    let mut places = Places::new(alloc, count + 1)?;
    places.add(0)?;
    for preload in preloads {
        places.add(*preload + 1)?;
    }
    Ok(places)
}
