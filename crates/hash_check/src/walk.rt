// Follows the walks of a hash table. Each chain word is followed only once.

ghost use Rattle.std.specs.Prelude.{◌≡◌, ◌<◌, ◌^◌, [], length, IsTrue, IfOk};
ghost use Rattle.std.specs.Prelude.{MatchBool};
ghost use Rattle.hash_check.specs.Walk.{walk, Ends};
ghost use Rattle.hash_check.specs.HashTable.{AreIndices};
ghost use Rattle.hash_check.specs.inside.Places.{Known, Sound, Keeps, IsPath};

use crate::chains::Chains;
use crate::jump::place_before;
use crate::place::{Place, place_of};
use std::alloc::AllocError;

/// Follows the walk from `from` up to an index that has a place, and appends the indices before
/// this index to `path`. Returns whether the walk ends. If it doesn't end, `path` gets as many
/// indices as there are chain words.
fn climb(
    places: &[Option<Place>],
    path: &mut Vec<u32>,
    chains: &Chains<'_, '_>,
    from: u32,
) -> Result<bool, AllocError>
    requires words { AreIndices (length chains.now) chains.now }
    requires size { length places.now ≡ length chains.now }
    requires within { from < length chains.now }
    requires zero { Known places.now 0 }
    requires path { path.old.items ≡ [] }
    ensures path { IsPath chains.now from path.new.items }
    ensures ends { IfOk result (λ ends. MatchBool ends
        (Known places.now (walk chains.now from (length path.new.items)))
        (¬ Ends chains.now from)) }
{
    let mut at = from;
    while place_of(places, at).is_none() {
        if path.len() == chains.count() as usize {
            return Ok(false);
        }
        path.push(at)?;
        at = chains.next(at);
    }
    Ok(true)
}

/// Stores the places of the indices in `path`, which begins at `from`. Begins with the last index,
/// because the place of each index is computed from that of the next index.
fn place_path(places: &mut [Option<Place>], path: &mut Vec<u32>, chains: &Chains<'_, '_>, from: u32)
    requires words { AreIndices (length chains.now) chains.now }
    requires size { length places.old ≡ length chains.now }
    requires limit { length chains.now < 2 ^ 32 }
    requires within { from < length chains.now }
    requires sound { Sound chains.now places.old }
    requires path { IsPath chains.now from path.old.items }
    requires known { Known places.old (walk chains.now from (length path.old.items)) }
    ensures size { length places.new ≡ length places.old }
    ensures sound { Sound chains.now places.new }
    ensures keeps { Keeps places.old places.new }
    ensures known { Known places.new from }
    ensures path { path.new.items ≡ [] }
{
    while let Some(i) = path.pop() {
        places[i as usize] = Some(place_before(places, chains, from, chains.next(i)));
    }
}

/// Stores the places of all indices on the walk from `from` if the walk ends, and returns whether
/// it ends.
pub(crate) fn follow(
    places: &mut [Option<Place>],
    path: &mut Vec<u32>,
    chains: &Chains<'_, '_>,
    from: u32,
) -> Result<bool, AllocError>
    requires words { AreIndices (length chains.now) chains.now }
    requires size { length places.old ≡ length chains.now }
    requires limit { length chains.now < 2 ^ 32 }
    requires within { from < length chains.now }
    requires zero { Known places.old 0 }
    requires sound { Sound chains.now places.old }
    requires path { path.old.items ≡ [] }
    ensures size { length places.new ≡ length places.old }
    ensures sound { Sound chains.now places.new }
    ensures keeps { Keeps places.old places.new }
    ensures path { IfOk result (λ b. IsTrue b → path.new.items ≡ []) }
    ensures ends { IfOk result (λ ends. MatchBool ends
        (Known places.new from)
        (¬ Ends chains.now from)) }
{
    let ends = climb(places, path, chains, from)?;
    if ends {
        place_path(places, path, chains, from);
    }
    Ok(ends)
}
