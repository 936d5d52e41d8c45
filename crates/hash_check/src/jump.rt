// Computes the place of an index from the place of the next index on the walk.

ghost use Rattle.std.specs.Prelude.{◌≡◌, ◌<◌, ◌^◌, Some, length};
ghost use Rattle.hash_check.specs.HashTable.{AreIndices};
ghost use Rattle.hash_check.specs.inside.Places.{Known, Sound, IsBefore, place_at};

use crate::chains::Chains;
use crate::place::{Place, known_place};

/// Returns the place of an index on the walk from `head`, from the place of the index `next`, which
/// follows it on this walk. If the jump of `next` and the jump after that one have the same length,
/// the new jump ends where the second of these jumps ends. Otherwise the new jump is a single step.
/// In this way, about log n jumps follow a walk of n steps.
pub(crate) fn place_before(
    places: &[Option<Place>],
    chains: &Chains<'_, '_>,
    head: u32,
    next: u32,
) -> Place
    requires words { AreIndices (length chains.now) chains.now }
    requires size { length places.now ≡ length chains.now }
    requires limit { length chains.now < 2 ^ 32 }
    requires within { next < length chains.now }
    requires sound { Sound chains.now places.now }
    requires known { Known places.now next }
    ensures { (p : Place) → place_at places.now next ≡ Some p
        → IsBefore chains.now head next p result }
{
    let place = known_place(places, next);
    let far = known_place(places, place.jump);
    if place.depth - place.landing == place.landing - far.landing {
        Place {
            depth: place.depth + 1,
            jump: far.jump,
            landing: far.landing,
            head,
        }
    } else {
        Place {
            depth: place.depth + 1,
            jump: next,
            landing: place.depth,
            head,
        }
    }
}
