// Tests whether a hash table can be trusted.

ghost use Rattle.std.specs.Prelude.{◌≡◌, ◌≢◌, ◌<◌, ◌≤◌, ◌↔◌, true, false, [], length, slice_index};
ghost use Rattle.std.specs.Prelude.{IsTrue, IfOk, OnErr};
ghost use Rattle.std.specs.Prelude.{MatchOption};
ghost use Rattle.std.specs.List.{All};
ghost use Rattle.elf_dynamic.specs.Symbol.{symbols};
ghost use Rattle.elf_dynamic.specs.HashTable.{buckets, chains};
ghost use Rattle.hash_check.specs.Export.{is_exported};
ghost use Rattle.hash_check.specs.Walk.{Ends, Meets};
ghost use Rattle.hash_check.specs.HashTable.{AreIndices, bucket_of, HasBucket, HasIndexWords};
ghost use Rattle.hash_check.specs.HashTable.{MeetsExports, HasGoodTable};
ghost use Rattle.hash_check.specs.Admission.{has_good_words, has_bad_hash_table};
ghost use Rattle.hash_check.specs.inside.Places.{Placed, IsJoint};
ghost use Rattle.elf_dynamic.specs.Strings.{name_of};
ghost use Rattle.hash_check.specs.inside.Names.{IsLengthOf, AreExports, IsWhole};
ghost use Rattle.hash_check.specs.inside.Lanes.{AreLanes, AllMet, IsMet};

use crate::buckets::Buckets;
use crate::chains::Chains;
use crate::exports::Exports;
use crate::hash::elf_hash;
use crate::hashes::LANES;
use crate::joint::joint_of_all;
use crate::lanes::Lanes;
use crate::meeting::is_met;
use crate::place::{Place, first_places};
use crate::walk::follow;
use elf_dynamic::Object;
use std::alloc::{AllocError, Global};

/// The minimum length, in bytes, of a name that is hashed together with other names. For a shorter
/// name, hashing takes less time than assigning a lane.
const LONG: usize = 24;

/// Returns whether there is a bucket, and every word of the table is the index of a symbol.
fn has_index_words(object: &Object<'_>) -> bool
    ensures { IsTrue result ↔ (HasBucket object.now × HasIndexWords object.now) }
{
    let buckets = Buckets::new(object);
    let chains = Chains::new(object);
    buckets.count() > 0 && buckets.are_indices(chains.count()) && chains.are_indices()
}

/// Returns the places of all indices that the walks from the buckets meet, or `None` if a walk
/// doesn't end.
fn follow_all(
    alloc: Global,
    buckets: &Buckets<'_, '_>,
    chains: &Chains<'_, '_>,
) -> Result<Option<Vec<Option<Place>>>, AllocError>
    requires some { 0 < length chains.now }
    requires buckets { AreIndices (length chains.now) buckets.now }
    requires words { AreIndices (length chains.now) chains.now }
    ensures { IfOk result (λ found. MatchOption found
        (¬ All (Ends chains.now) buckets.now)
        (λ places. Placed buckets.now chains.now places.items)) }
{
    let mut places = first_places(alloc, chains.count() as usize)?;
    let mut path = Vec::new(alloc);
    for i in 0..buckets.count() {
        if !follow(&mut places, &mut path, chains, buckets.word(i))? {
            return Ok(None);
        }
    }
    Ok(Some(places))
}

/// Returns whether the walk from `joint` meets exported symbol `i`. If it does, the walks from all
/// buckets meet it too, and its name doesn't have to be hashed.
fn is_met_by_all(object: &Object<'_>, places: &[Option<Place>], joint: u32, i: u32) -> bool
    requires some { HasBucket object.now }
    requires words { HasIndexWords object.now }
    requires places { Placed (buckets object.now) (chains object.now) places.now }
    requires joint { IsJoint (buckets object.now) (chains object.now) places.now joint }
    requires exported { is_exported object.now i ≡ true }
    ensures { IsTrue result → IsMet object.now i }
{
    is_met(places, &Chains::new(object), joint, i)
}

/// Returns whether the walk from the bucket of `hash` meets symbol `i`.
fn is_met_by_hash(object: &Object<'_>, places: &[Option<Place>], hash: u32, i: u32) -> bool
    requires some { HasBucket object.now }
    requires words { HasIndexWords object.now }
    requires places { Placed (buckets object.now) (chains object.now) places.now }
    requires index { i < length (symbols object.now) }
    requires nonzero { 1 ≤ i }
    ensures { let from = bucket_of (buckets object.now) hash in
        IsTrue result ↔ Meets (chains object.now) from i }
{
    let from = Buckets::new(object).of_hash(hash);
    is_met(places, &Chains::new(object), from, i)
}

/// Returns whether lane number `k` is free, or its symbol is on the walk from the bucket of its
/// name's hash.
fn is_lane_met(object: &Object<'_>, places: &[Option<Place>], lanes: &Lanes, k: usize) -> bool
    requires some { HasBucket object.now }
    requires words { HasIndexWords object.now }
    requires places { Placed (buckets object.now) (chains object.now) places.now }
    requires lanes { AreLanes object.now lanes.now }
    requires within { k < 8 }
    ensures { let symbol = slice_index lanes.now.symbols k in
        IsTrue result ↔ (symbol ≢ 0 → IsMet object.now symbol) }
{
    let symbol = lanes.symbols[k];
    symbol == 0 || is_met_by_hash(object, places, lanes.hash(object, k), symbol)
}

/// Finishes the hash of one lane. Returns whether the lane was free, or its symbol is on the walk
/// from the bucket of this hash. If so, also assigns the lane to exported symbol `i`, whose name
/// has `length` bytes.
fn take_in(
    object: &Object<'_>,
    places: &[Option<Place>],
    lanes: &mut Lanes,
    i: u32,
    length: usize,
) -> bool
    requires some { HasBucket object.now }
    requires words { HasIndexWords object.now }
    requires places { Placed (buckets object.now) (chains object.now) places.now }
    requires lanes { AreLanes object.now lanes.old }
    requires exported { is_exported object.now i ≡ true }
    requires length { IsLengthOf object.now i length }
    ensures lanes { AreLanes object.now lanes.new }
    ensures others { IsTrue result → AllMet object.now lanes.new.symbols
        → AllMet object.now lanes.old.symbols }
    ensures taken { IsTrue result → AllMet object.now lanes.new.symbols → IsMet object.now i }
    ensures missed { result ≡ false → ¬ MeetsExports object.now }
{
    let k = lanes.run(object);
    let met = is_lane_met(object, places, lanes, k);
    if met {
        lanes.put(object, k, i, length);
    }
    met
}

/// Tests exported symbol `i` by its name's hash. Hashes a short name at once. Assigns a lane to a
/// long name, whose symbol is tested when its hash is finished. Returns whether each symbol that
/// this call tested is on the walk from the bucket of its name's hash.
fn test_by_name(
    object: &Object<'_>,
    places: &[Option<Place>],
    lanes: &mut Lanes,
    i: u32,
    name: &[u8],
) -> bool
    requires some { HasBucket object.now }
    requires words { HasIndexWords object.now }
    requires places { Placed (buckets object.now) (chains object.now) places.now }
    requires lanes { AreLanes object.now lanes.old }
    requires exported { is_exported object.now i ≡ true }
    requires name { name.now ≡ name_of object.now i }
    ensures lanes { AreLanes object.now lanes.new }
    ensures others { IsTrue result → AllMet object.now lanes.new.symbols
        → AllMet object.now lanes.old.symbols }
    ensures taken { IsTrue result → AllMet object.now lanes.new.symbols → IsMet object.now i }
    ensures missed { result ≡ false → ¬ MeetsExports object.now }
{
    if name.len() < LONG {
        is_met_by_hash(object, places, elf_hash(name), i)
    } else {
        take_in(object, places, lanes, i, name.len())
    }
}

/// Returns whether each lane is free, or its symbol is on the walk from the bucket of its name's
/// hash.
fn are_met(object: &Object<'_>, places: &[Option<Place>], lanes: &Lanes) -> bool
    requires some { HasBucket object.now }
    requires words { HasIndexWords object.now }
    requires places { Placed (buckets object.now) (chains object.now) places.now }
    requires lanes { AreLanes object.now lanes.now }
    ensures { IsTrue result ↔ AllMet object.now lanes.now.symbols }
{
    for k in 0..LANES {
        if !is_lane_met(object, places, lanes, k) {
            return false;
        }
    }
    true
}

/// Returns whether each exported symbol is on the walk from the bucket of its name's hash. Hashes a
/// name only if its symbol isn't on the walks from all buckets. Hashes long names several at a
/// time.
fn meets_exports(object: &Object<'_>, places: &[Option<Place>], exports: &Exports<'_>) -> bool
    requires some { HasBucket object.now }
    requires words { HasIndexWords object.now }
    requires places { Placed (buckets object.now) (chains object.now) places.now }
    requires exports { AreExports object.now exports.now.symbols.items exports.now.names.items }
    requires whole { IsWhole object.now exports.now.symbols.items }
    ensures { IsTrue result ↔ MeetsExports object.now }
{
    let joint = joint_of_all(places, &Buckets::new(object), &Chains::new(object));
    let mut lanes = Lanes::new();
    for k in 0..exports.symbols.len() {
        let i = exports.symbols[k];
        if !is_met_by_all(object, places, joint, i)
            && !test_by_name(object, places, &mut lanes, i, exports.names[k].bytes())
        {
            return false;
        }
    }
    are_met(object, places, &lanes)
}

/// Returns whether the hash table can be trusted.
fn has_good_table<'a>(
    alloc: Global,
    object: &Object<'a>,
    exports: Exports<'a>,
) -> Result<bool, AllocError>
    requires exports { AreExports object.now exports.symbols.items exports.names.items }
    requires whole { exports.symbols.items ≢ [] → IsWhole object.now exports.symbols.items }
    ensures ok { IfOk result (λ good. IsTrue good ↔ HasGoodTable object.now) }
    // The function allocates memory only after the words have passed their test.
    ensures err { OnErr result (HasBucket object.now × HasIndexWords object.now) }
{
    if !has_index_words(object) {
        return Ok(false);
    }
    let all = exports.whole(alloc, object)?;
    match follow_all(alloc, &Buckets::new(object), &Chains::new(object))? {
        Some(places) => Ok(meets_exports(object, &places, &all)),
        None => Ok(false),
    }
}

/// Returns whether the hash table can't be trusted. Allocates about 24 bytes for each symbol while
/// it runs, and follows each chain word once. On the walk that met an exported symbol first, the
/// symbol is found in one step. On another walk of n steps, it is found in about log n steps.
/// Hashes a symbol's name only if the symbol isn't on the walks from all buckets.
#[tactic(auto, using(crate::proofs::Deciding::bad_test, crate::proofs::Deciding::words_test))]
pub(crate) fn has_bad_hash_table<'a>(
    alloc: Global,
    object: &Object<'a>,
    exports: Exports<'a>,
) -> Result<bool, AllocError>
    requires exports { AreExports object.now exports.symbols.items exports.names.items }
    requires whole { exports.symbols.items ≢ [] → IsWhole object.now exports.symbols.items }
    ensures ok { IfOk result (λ bad. bad ≡ has_bad_hash_table object.now) }
    ensures err { OnErr result (has_good_words object.now ≡ true) }
{
    let good = has_good_table(alloc, object, exports)?;
    Ok(!good)
}
