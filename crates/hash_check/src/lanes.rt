// Hashes up to eight names together, each in a lane of its own.

ghost use Rattle.std.specs.Prelude.{ℕ, List, true, ◌≡◌, ◌≢◌, ◌<◌, ◌≤◌, ◌-◌};
ghost use Rattle.std.specs.Prelude.{◌+◌, ◌^◌, slice_index, set};
ghost use Rattle.elf_dynamic.specs.Strings.{name_of};
ghost use Rattle.hash_check.specs.Hash.{elf_hash};
ghost use Rattle.hash_check.specs.Export.{is_exported};
ghost use Rattle.hash_check.specs.inside.Names.{IsLengthOf};
ghost use Rattle.hash_check.specs.inside.Lanes.{AreLanes, AreOrdered};

use crate::hash::hash_rest;
use crate::hashes::{LANES, add_bytes};
use crate::names::offset_of;
use elf_dynamic::Object;

/// Up to eight exported symbols whose names are hashed together. A lane has the number of a symbol,
/// the hash of the first bytes of the symbol's name, and the place and the end of the name's other
/// bytes in the string table. A lane with symbol number 0 is free.
#[derive(Clone, Copy)]
pub(crate) struct Lanes {
    pub(crate) symbols: [u32; LANES],
    hashes: [u32; LANES],
    places: [usize; LANES],
    ends: [usize; LANES],
}

/// Returns the number of the lane in which the fewest bytes remain to be hashed.
fn shortest(places: &[usize; LANES], ends: &[usize; LANES]) -> usize
    requires { AreOrdered places.now ends.now }
    ensures within { result < 8 }
    ensures least { (k : ℕ) → k < 8 → slice_index ends.now result - slice_index places.now result
        ≤ slice_index ends.now k - slice_index places.now k }
{
    let mut best = 0;
    for k in 1..LANES {
        if ends[k] - places[k] < ends[best] - places[best] {
            best = k;
        }
    }
    best
}

/// Adds `count` to each place.
fn move_on(places: &mut [usize; LANES], count: usize)
    requires { (k : ℕ) → k < 8 → slice_index places.old k + count < 2 ^ 64 }
    ensures { (k : ℕ) → k < 8 → slice_index places.new k ≡ slice_index places.old k + count }
{
    for k in 0..LANES {
        places[k] += count;
    }
}

impl Lanes {
    /// Makes eight free lanes.
    pub(crate) fn new() -> Lanes
        ensures { (file : List ℕ) → AreLanes file result }
    {
        Lanes {
            symbols: [0; LANES],
            hashes: [0; LANES],
            places: [0; LANES],
            ends: [0; LANES],
        }
    }

    /// Hashes the same number of bytes of each name: as many as remain in the lane in which the
    /// fewest remain. Returns the number of this lane.
    pub(crate) fn run(&mut self, object: &Object<'_>) -> usize
        requires { AreLanes object.now self.old }
        ensures within { result < 8 }
        ensures lanes { AreLanes object.now self.new }
        ensures symbols { self.new.symbols ≡ self.old.symbols }
    {
        let k = shortest(&self.places, &self.ends);
        let count = self.ends[k] - self.places[k];
        add_bytes(object.string_table(), &self.places, count, &mut self.hashes);
        move_on(&mut self.places, count);
        k
    }

    /// Assigns lane number `k` to exported symbol number `symbol`, whose name has `length` bytes.
    pub(crate) fn put(&mut self, object: &Object<'_>, k: usize, symbol: u32, length: usize)
        requires within { k < 8 }
        requires lanes { AreLanes object.now self.old }
        requires exported { is_exported object.now symbol ≡ true }
        requires length { IsLengthOf object.now symbol length }
        ensures lanes { AreLanes object.now self.new }
        ensures symbols { self.new.symbols ≡ set self.old.symbols k symbol }
    {
        let place = (offset_of(object, symbol) as usize).min(object.string_table().len());
        self.symbols[k] = symbol;
        self.hashes[k] = 0;
        self.places[k] = place;
        self.ends[k] = place + length;
    }

    /// Returns the hash of the name of lane number `k`. The time is proportional to the number of
    /// bytes of the name that remain to be hashed.
    pub(crate) fn hash(&self, object: &Object<'_>, k: usize) -> u32
        requires within { k < 8 }
        requires lanes { AreLanes object.now self.now }
        requires some { slice_index self.now.symbols k ≢ 0 }
        ensures { result ≡ elf_hash (name_of object.now (slice_index self.now.symbols k)) }
    {
        hash_rest(
            self.hashes[k],
            &object.string_table()[self.places[k]..self.ends[k]],
        )
    }
}
