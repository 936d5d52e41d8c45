// Tests whether a walk meets an index.

ghost use Rattle.std.specs.Prelude.{◌≡◌, ◌<◌, ◌≤◌, ◌-◌, ◌↔◌, ℕ, length, IsTrue};
ghost use Rattle.hash_check.specs.Walk.{walk, Meets};
ghost use Rattle.hash_check.specs.HashTable.{AreIndices};
ghost use Rattle.hash_check.specs.inside.Places.{Depth, Known, Sound};

use crate::chains::Chains;
use crate::place::{Place, known_place, place_of};

/// Returns the index on the walk from `from` at which `depth` steps remain to 0. If the walk from
/// `from` takes fewer than `depth` steps to 0, returns `from`.
fn at_depth(places: &[Option<Place>], chains: &Chains<'_, '_>, from: u32, depth: u32) -> u32
    requires words { AreIndices (length chains.now) chains.now }
    requires size { length places.now ≡ length chains.now }
    requires within { from < length chains.now }
    requires sound { Sound chains.now places.now }
    requires known { Known places.now from }
    ensures { (d : ℕ) → Depth chains.now from d → result ≡ walk chains.now from (d - depth) }
{
    let mut at = from;
    let mut place = known_place(places, at);
    while place.depth > depth {
        at = if place.landing >= depth {
            place.jump
        } else {
            chains.next(at)
        };
        place = known_place(places, at);
    }
    at
}

/// Returns whether the walk from `from` meets `index` before 0. Takes constant time if the place of
/// `index` has the head `from`. If no two walks share an index, the time is constant for each index
/// that the walk meets.
pub(crate) fn is_met(
    places: &[Option<Place>],
    chains: &Chains<'_, '_>,
    from: u32,
    index: u32,
) -> bool
    requires words { AreIndices (length chains.now) chains.now }
    requires size { length places.now ≡ length chains.now }
    requires within { from < length chains.now }
    requires sound { Sound chains.now places.now }
    requires known { Known places.now from }
    requires index { index < length chains.now }
    requires nonzero { 1 ≤ index }
    ensures { IsTrue result ↔ Meets chains.now from index }
{
    match place_of(places, index) {
        Some(place) => {
            place.head == from || at_depth(places, chains, from, place.depth) == index
        }
        None => false,
    }
}
