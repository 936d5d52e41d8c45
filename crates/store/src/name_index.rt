// The order of the entries' names, for binary searches. A table of guesses finds most names without
// a search.
ghost use Rattle.std.specs.Prelude.{◌≡◌, ◌≢◌, ◌<◌, ◌≤◌, ◌^◌, ◌↔◌, [], ◌∷◌, ◌++◌, All, IsNone};
ghost use Rattle.std.specs.Prelude.{IsTrue, IfOk, IfSome, OnOk, OnErr, length, map, slice_index_or};
ghost use Rattle.std.specs.List.{range_with_len, remove};
ghost use Rattle.std.specs.Ordering.{is_lt};
ghost use Rattle.store.specs.declared.placed_entry.PlacedEntry.{PlacedEntry};
ghost use Rattle.store.specs.Stands.{HaveOwnNames, name_of};
ghost use Rattle.store.specs.inside.Kept.{HaveSpellings};
ghost use Rattle.store.specs.inside.NameIndex.{IsIndex, IsSortedOrder, Rises, IsPlace};
ghost use Rattle.store.specs.NameOrder.{entry_names, name_at, name_order};
ghost use Rattle.store.specs.inside.NameIndex.{order_to, closed_up};

use crate::placed_entry::PlacedEntry;
use std::alloc::{AllocError, Global};
use std::cmp::Ordering;
use std::marker::Model;

/// The number of guesses in the table: twice the maximum number of entries.
const GUESSES: usize = 4096;

/// The positions of entries in the order of their names.
#[derive(Drop)]
pub(crate) struct NameIndex {
    positions: Vec<u16>,
    // For each sum of a name, the position at which a name with this sum was last put. A guess may
    // be wrong, so the name at its position is compared before the position is returned. When an
    // entry is removed, the guesses for the entries after it aren't corrected.
    guesses: Vec<u16>,
}

impl Model for NameIndex {
    ghost use Rattle.std.specs.Prelude.{◌-◌, vec_len, vec_capacity};
    ghost use Rattle.store.specs.inside.NameIndex.{Index};

    ghost Value = { Index };

    ghost view = { λ index. record {
      positions = index.positions.items;
      room = vec_capacity index.positions - vec_len index.positions;
    } };
}

/// Returns the name of the entry at `position`, or the empty name if there is none.
fn name_at(entries: &[PlacedEntry], position: u16) -> &[u8]
    requires { HaveSpellings entries.now }
    ensures { result.now ≡ name_at (entry_names entries.now) position }
{
    match entries.get(usize::from(position)) {
        Some(placed) => placed.entry.name_bytes(),
        None => &[],
    }
}

/// Compares the names at the positions `a` and `b`, byte by byte.
fn compare(entries: &[PlacedEntry], a: u16, b: u16) -> Ordering
    requires { HaveSpellings entries.now }
    ensures { result ≡ name_order (entry_names entries.now) a b }
{
    name_at(entries, a).cmp(name_at(entries, b))
}

/// Returns whether the name at `position` comes before `name`.
fn precedes(entries: &[PlacedEntry], position: u16, name: &[u8]) -> bool
    requires { HaveSpellings entries.now }
    ensures { result ≡ is_lt (order_to (entry_names entries.now) name.now position) }
{
    name_at(entries, position).cmp(name).is_lt()
}

/// Returns a sum of the bytes of a name: the place of the name's guess in the table. Adds eight
/// bytes at a time, because a file may look up many long names.
fn guess_place(name: &[u8]) -> usize {
    let (words, rest) = name.as_chunks::<8>();
    let mut sum = 0u64;
    for word in words {
        sum = (sum ^ u64::from_le_bytes(*word)).wrapping_mul(0x9e37_79b9_7f4a_7c15);
    }
    for byte in rest {
        sum = (sum ^ u64::from(*byte)).wrapping_mul(0x9e37_79b9_7f4a_7c15);
    }
    (sum >> 52) as usize
}

/// Stores the guess that `name` is at `position`.
fn note_guess(guesses: &mut Vec<u16>, name: &[u8], position: u16) {
    if let Some(guess) = guesses.get_mut(guess_place(name)) {
        *guess = position;
    }
}

/// Makes a guess for each of the entries.
fn guesses_for(alloc: Global, entries: &[PlacedEntry]) -> Result<Vec<u16>, AllocError>
    requires spellings { HaveSpellings entries.now }
    requires few { length entries.now < 2 ^ 16 }
{
    let mut guesses = Vec::with_capacity(alloc, GUESSES)?;
    guesses.resize(GUESSES, 0)?;
    for (position, placed) in entries.iter().enumerate() {
        note_guess(&mut guesses, placed.entry.name_bytes(), position as u16);
    }
    Ok(guesses)
}

/// Returns the positions of `count` entries: the numbers below `count`, in ascending order.
fn all_positions(alloc: Global, count: usize) -> Result<Vec<u16>, AllocError>
    requires { count < 2 ^ 16 }
    ensures { IfOk result (λ positions. positions.items ≡ range_with_len 0 count) }
{
    (0..count as u16).collect(alloc)
}

/// Returns all positions in the order of their names. The same name may occur twice.
fn sorted_positions(alloc: Global, entries: &[PlacedEntry]) -> Result<Vec<u16>, AllocError>
    requires spellings { HaveSpellings entries.now }
    requires few { length entries.now < 2 ^ 16 }
    ensures { IfOk result (λ positions.
        IsSortedOrder (entry_names entries.now) positions.items) }
{
    let mut positions = all_positions(alloc, entries.len())?;
    positions.sort_unstable_by(|a, b| compare(entries, *a, *b));
    Ok(positions)
}

/// Returns whether the name at each position comes before the name at the next one.
fn is_sorted(entries: &[PlacedEntry], positions: &[u16]) -> bool
    requires { HaveSpellings entries.now }
    ensures { IsTrue result ↔ Rises (entry_names entries.now) positions.now }
{
    for i in 1..positions.len() {
        if compare(entries, positions[i - 1], positions[i]) != Ordering::Less {
            return false;
        }
    }
    true
}

/// Returns the new value of `position` after the entry at `gone` was removed: the entries after
/// `gone` move up by one position.
fn closed_up(gone: u16, position: u16) -> u16
    ensures { result ≡ closed_up gone position }
{
    if position > gone {
        position - 1
    } else {
        position
    }
}

/// Adapts positions of entries to the removal of the entry at `gone`: the entries after it move up
/// by one position.
pub(crate) fn close_up(positions: &mut [u16], gone: u16)
    ensures { positions.new ≡ map (closed_up gone) positions.old }
{
    for position in positions.iter_mut() {
        *position = closed_up(gone, *position);
    }
}

impl NameIndex {
    /// Makes the order of an empty list. Allocates nothing.
    pub(crate) fn empty(alloc: Global) -> NameIndex
        ensures { IsIndex [] result }
    {
        NameIndex {
            positions: Vec::new(alloc),
            guesses: Vec::new(alloc),
        }
    }

    /// Makes the order of the entries' names. Returns `None` if a name occurs twice.
    pub(crate) fn over(
        alloc: Global,
        entries: &[PlacedEntry],
    ) -> Result<Option<NameIndex>, AllocError>
        requires spellings { HaveSpellings entries.now }
        requires few { length entries.now < 2 ^ 16 }
        ensures own { IfOk result (λ found. IfSome found (λ index.
            IsIndex entries.now index × HaveOwnNames entries.now)) }
        ensures twice { IfOk result (λ found. IsNone found → HaveOwnNames entries.now → ⊥) }
    {
        let positions = sorted_positions(alloc, entries)?;
        if is_sorted(entries, &positions) {
            let guesses = guesses_for(alloc, entries)?;
            Ok(Some(NameIndex { positions, guesses }))
        } else {
            Ok(None)
        }
    }

    /// Returns a copy of the order, in newly allocated memory.
    pub(crate) fn copy(&self, alloc: Global) -> Result<NameIndex, AllocError>
        ensures { IfOk result (λ index. index.positions ≡ self.now.positions) }
    {
        let mut positions = Vec::new(alloc);
        positions.extend_from_slice(&self.positions)?;
        let mut guesses = Vec::new(alloc);
        guesses.extend_from_slice(&self.guesses)?;
        Ok(NameIndex { positions, guesses })
    }

    /// The positions in the order of the names.
    pub(crate) fn positions(&self) -> &[u16]
        ensures { result.now ≡ self.now.positions }
    {
        &self.positions
    }

    /// Returns the place of a name in the order: the number of names that come before it.
    fn place_of(&self, entries: &[PlacedEntry], name: &[u8]) -> usize
        requires index { IsIndex entries.now self.now }
        requires spellings { HaveSpellings entries.now }
        ensures { IsPlace (entry_names entries.now) self.now.positions name.now result }
    {
        self.positions
            .partition_point(|position| precedes(entries, *position, name))
    }

    /// Returns the position that the table guesses for `name`, if the entry at this position has
    /// the name.
    fn guessed(&self, entries: &[PlacedEntry], name: &[u8]) -> Option<usize>
        requires spellings { HaveSpellings entries.now }
        ensures some { IfSome result (λ i. (i < length entries.now)
            × ((d : PlacedEntry) → name_of (slice_index_or entries.now i d).entry ≡ name.now)) }
    {
        let position = *self.guesses.get(guess_place(name))?;
        if usize::from(position) < entries.len() && name_at(entries, position) == name {
            Some(usize::from(position))
        } else {
            None
        }
    }

    /// Returns the position of the entry with the name `name`. If the guess is wrong, makes a
    /// binary search: at most 12 comparisons, and then one with the name at which the search ends.
    pub(crate) fn position_of(&self, entries: &[PlacedEntry], name: &[u8]) -> Option<usize>
        requires index { IsIndex entries.now self.now }
        requires spellings { HaveSpellings entries.now }
        ensures none { IsNone result → All (λ placed. name_of placed.entry ≢ name.now) entries.now }
        ensures some { IfSome result (λ i. (i < length entries.now)
            × ((d : PlacedEntry) → name_of (slice_index_or entries.now i d).entry ≡ name.now)) }
    {
        if let Some(position) = self.guessed(entries, name) {
            return Some(position);
        }
        let place = self.place_of(entries, name);
        if place == self.positions.len() {
            return None;
        }
        let position = self.positions[place];
        if name_at(entries, position) == name {
            Some(usize::from(position))
        } else {
            None
        }
    }

    /// Makes room for one more position, unless there already is room.
    pub(crate) fn reserve(&mut self) -> Result<(), AllocError>
        ensures positions { self.new.positions ≡ self.old.positions }
        ensures ok { OnOk result (1 ≤ self.new.room) }
        ensures full { OnErr result (self.old.room ≡ 0) }
    {
        self.positions.reserve(1)
    }

    /// Inserts the name of an entry that is put after all other entries. Allocates nothing.
    pub(crate) fn insert(&mut self, entries: &[PlacedEntry], name: &[u8])
        requires index { IsIndex entries.now self.old }
        requires spellings { HaveSpellings entries.now }
        requires room { 1 ≤ self.old.room }
        requires few { length entries.now < 2 ^ 16 }
        requires new { All (λ placed. name_of placed.entry ≢ name.now) entries.now }
        ensures { (put : PlacedEntry) → name_of put.entry ≡ name.now
            → IsIndex (entries.now ++ put ∷ []) self.new }
    {
        let place = self.place_of(entries, name);
        note_guess(&mut self.guesses, name, entries.len() as u16);
        match self.positions.insert(place, entries.len() as u16) {
            Ok(()) => {}
            Err(_) => unreachable!(),
        }
    }

    /// Removes the entry at `position`. The entries after it move up by one position.
    pub(crate) fn remove(&mut self, entries: &[PlacedEntry], position: usize)
        requires index { IsIndex entries.now self.old }
        requires spellings { HaveSpellings entries.now }
        requires within { position < length entries.now }
        ensures { IsIndex (remove entries.now position) self.new }
    {
        let name = entries[position].entry.name_bytes();
        let place = self.place_of(entries, name);
        let gone = self.positions.remove(place);
        close_up(&mut self.positions, gone);
    }
}
