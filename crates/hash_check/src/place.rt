// Stores the places of indices on walks that have been followed.

ghost use Rattle.std.specs.Prelude.{◌≡◌, ◌<◌, ◌≤◌, ◌^◌, Some, length, IfOk};
ghost use Rattle.hash_check.specs.HashTable.{AreIndices};
ghost use Rattle.hash_check.specs.inside.Places.{Known, place_at, none_but_zero};

use std::alloc::{AllocError, Global};

/// The place of an index on its walk. `depth` is the number of chain steps from the index to 0.
/// `jump` is an index further along the walk, and `landing` is the number of steps from `jump` to
/// 0. `head` is an index from which a walk meets the index that has this place.
#[derive(Clone, Copy)]
pub(crate) struct Place {
    pub(crate) depth: u32,
    pub(crate) jump: u32,
    pub(crate) landing: u32,
    pub(crate) head: u32,
}

/// Returns the place of index `i`, if this index has a place.
pub(crate) fn place_of(places: &[Option<Place>], i: u32) -> Option<Place>
    requires { i < length places.now }
    ensures { result ≡ place_at places.now i }
{
    places[i as usize]
}

/// Returns the place of index `i`, which has a place.
pub(crate) fn known_place(places: &[Option<Place>], i: u32) -> Place
    requires within { i < length places.now }
    requires known { Known places.now i }
    ensures { place_at places.now i ≡ Some result }
{
    match places[i as usize] {
        Some(place) => place,
        None => unreachable!(),
    }
}

/// Returns a list of places for `n` indices, in which only index 0 has a place.
#[tactic(auto, unfolding(crate::specs::inside::Places::none_but_zero))]
pub(crate) fn first_places(alloc: Global, n: usize) -> Result<Vec<Option<Place>>, AllocError>
    requires { 0 < n }
    ensures { IfOk result (λ places. places.items ≡ none_but_zero n) }
{
    let mut places = Vec::with_capacity(alloc, n)?;
    places.resize(n, None)?;
    places[0] = Some(Place {
        depth: 0,
        jump: 0,
        landing: 0,
        head: 0,
    });
    Ok(places)
}
