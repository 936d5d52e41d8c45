ghost use Rattle.std.specs.Prelude.{◌≡◌, ◌+◌, ◌<◌, ◌≤◌, ◌∷◌, ◌++◌, [], length, take, drop, set};
ghost use Rattle.std.specs.Prelude.{IfOk};

use crate::extent::Extent;
use std::alloc::{AllocError, Global};
use std::marker::Model;

/// The unused runs of a disk, from the lowest to the highest. Most changes are among the lowest
/// runs. For this reason, a removed run may leave a vacant place before all runs, and an added run
/// may fill such a place.
#[derive(Drop)]
pub(crate) struct RunList {
    // The vacant places, followed by the runs.
    list: Vec<Extent>,

    // The number of vacant places.
    vacant: usize,
}

impl Model for RunList {
    ghost use Rattle.std.specs.Prelude.{◌≤◌, drop, vec_len, vec_capacity};
    ghost use Rattle.std.specs.Vec.{vec_ptr};
    ghost use Rattle.extents.specs.inside.Kept.{KeptRuns};

    ghost Value = { KeptRuns };

    ghost view = { λ runs. record {
      items = drop runs.vacant runs.list.items;
      capacity = vec_capacity runs.list;
      memory = vec_ptr runs.list;
    } };

    ghost invariant = { λ runs. runs.vacant ≤ vec_len runs.list };
}

impl RunList {
    /// Makes an empty list, with room for `capacity` runs.
    pub(crate) fn with_capacity(alloc: Global, capacity: usize) -> Result<RunList, AllocError>
        ensures items { IfOk result (λ runs. runs.items ≡ []) }
        ensures capacity { IfOk result (λ runs. runs.capacity ≡ capacity) }
    {
        Ok(RunList {
            list: Vec::with_capacity(alloc, capacity)?,
            vacant: 0,
        })
    }

    /// Returns the runs, from the lowest to the highest.
    pub(crate) fn as_slice(&self) -> &[Extent]
        ensures { result.now ≡ self.now.items }
    {
        &self.list[self.vacant..]
    }

    /// Replaces the run at `place` by `run`.
    pub(crate) fn set(&mut self, place: usize, run: Extent)
        requires { place < length self.old.items }
        ensures items { self.new.items ≡ set self.old.items place run }
        ensures capacity { self.new.capacity ≡ self.old.capacity }
        ensures in_place { self.new.memory ≡ self.old.memory }
    {
        self.list[self.vacant + place] = run;
    }

    /// Removes the run at `place`. Moves the runs below it up, or the runs above it down, whichever
    /// are fewer.
    pub(crate) fn remove(&mut self, place: usize)
        requires { place < length self.old.items }
        ensures items { self.new.items
            ≡ take place self.old.items ++ drop (place + 1) self.old.items }
        ensures capacity { self.new.capacity ≡ self.old.capacity }
        ensures in_place { self.new.memory ≡ self.old.memory }
    {
        let at = self.vacant + place;
        if place < self.list.len() - at {
            self.list[self.vacant..at + 1].rotate_right(1);
            self.vacant += 1;
        } else {
            self.list.remove(at);
        }
    }

    /// Inserts `run` at `place`. Moves the runs below it down, or the runs above it up. If there is
    /// room on both sides, moves the side with fewer runs.
    pub(crate) fn insert(&mut self, place: usize, run: Extent)
        requires within { place ≤ length self.old.items }
        requires room { length self.old.items < self.old.capacity }
        ensures items { self.new.items
            ≡ take place self.old.items ++ run ∷ drop place self.old.items }
        ensures capacity { self.new.capacity ≡ self.old.capacity }
        ensures in_place { self.new.memory ≡ self.old.memory }
    {
        let at = self.vacant + place;
        let is_high = self.list.len() - at < place && self.list.len() < self.list.capacity();
        if self.vacant == 0 || is_high {
            self.list.insert(at, run).unwrap();
        } else {
            self.vacant -= 1;
            self.list[self.vacant..at].rotate_left(1);
            self.list[at - 1] = run;
        }
    }
}
