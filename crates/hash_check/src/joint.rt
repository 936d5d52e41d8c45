// Finds the first index that the walks from all buckets meet.

ghost use Rattle.std.specs.Prelude.{◌≡◌, ◌≢◌, ◌<◌, ◌≤◌, length};
ghost use Rattle.hash_check.specs.Walk.{Meets};
ghost use Rattle.hash_check.specs.HashTable.{AreIndices};
ghost use Rattle.hash_check.specs.inside.Places.{Known, Sound, Placed, IsJoint};

use crate::buckets::Buckets;
use crate::chains::Chains;
use crate::meeting::is_met;
use crate::place::Place;

/// Returns the first index on the walk from `from` that the walk from `other` meets too, or 0 if
/// there is none.
fn joint_of_two(places: &[Option<Place>], chains: &Chains<'_, '_>, from: u32, other: u32) -> u32
    requires words { AreIndices (length chains.now) chains.now }
    requires size { length places.now ≡ length chains.now }
    requires within { from < length chains.now }
    requires within_other { other < length chains.now }
    requires sound { Sound chains.now places.now }
    requires known { Known places.now from }
    requires known_other { Known places.now other }
    ensures within { result < length chains.now }
    ensures known { Known places.now result }
    ensures met { result ≢ 0 → Meets chains.now from result }
    ensures met_other { result ≢ 0 → Meets chains.now other result }
{
    let mut at = from;
    while at != 0 {
        if is_met(places, chains, other, at) {
            return at;
        }
        at = chains.next(at);
    }
    at
}

/// Returns the first index that the walks from all buckets meet, or 0 if there is none. Makes each
/// step along the walk from the first bucket only once.
pub(crate) fn joint_of_all(
    places: &[Option<Place>],
    buckets: &Buckets<'_, '_>,
    chains: &Chains<'_, '_>,
) -> u32
    requires some { 1 ≤ length buckets.now }
    requires buckets { AreIndices (length chains.now) buckets.now }
    requires words { AreIndices (length chains.now) chains.now }
    requires places { Placed buckets.now chains.now places.now }
    ensures { IsJoint buckets.now chains.now places.now result }
{
    let mut joint = buckets.word(0);
    for i in 1..buckets.count() {
        joint = joint_of_two(places, chains, joint, buckets.word(i));
    }
    joint
}
