// A queue of places.

ghost use Rattle.std.specs.Prelude.{◌≡◌, ◌<◌, ◌≤◌, ◌-◌, [], length, take, slice_index};
ghost use Rattle.std.specs.Prelude.{false, IfOk, OnOk, OnErr};
ghost use Rattle.scope.specs.Levels.{is_among};
ghost use Rattle.scope.specs.Queue.{grown_by, AreApart};

use std::alloc::{AllocError, Global};
use std::marker::Model;

/// A queue of places below a limit. Each place is in the queue at most once, and the places are in
/// the order in which they were added. Such a queue is used to compute load order, also by callers
/// that find the needed libraries one after the other. In contracts, the value is the limit and the
/// places.
#[derive(Drop)]
pub struct Places {
    places: Vec<usize>,
    flags: Vec<bool>,
}

impl Model for Places {
    ghost use Rattle.std.specs.Prelude.{length};
    ghost use Rattle.scope.specs.Queue.{Queue};
    ghost use Rattle.scope.specs.inside.Places.{AreTold};

    ghost Value = { Queue };

    ghost view = { λ q. record { limit = length q.flags.items; places = q.places.items } };

    ghost invariant = { λ q. AreTold q.flags.items q.places.items };
}

impl Places {
    /// Makes an empty queue for places below `limit`.
    pub fn new(alloc: Global, limit: usize) -> Result<Places, AllocError>
        ensures { IfOk result (λ q. q ≡ record { limit = limit; places = [] }) }
    {
        let flags = vec![in alloc; false; limit]?;
        let places = Vec::new(alloc);
        Ok(Places { places, flags })
    }

    /// The number of places in the queue.
    pub fn count(&self) -> usize
        ensures count { result ≡ length self.now.places }
        ensures few { length self.now.places ≤ self.now.limit }
        ensures apart { AreApart self.now.limit self.now.places }
    {
        self.places.len()
    }

    /// Returns place number `i` of the queue.
    pub fn at(&self, i: usize) -> usize
        requires { i < length self.now.places }
        ensures at { result ≡ slice_index self.now.places i }
        ensures below { result < self.now.limit }
    {
        self.places[i]
    }

    /// Adds a place, unless the queue already has it. If the queue has it, allocates nothing.
    pub fn add(&mut self, place: usize) -> Result<(), AllocError>
        requires { place < self.old.limit }
        ensures ok { OnOk result (self.new
            ≡ record { limit = self.old.limit; places = grown_by self.old.places place }) }

        // Memory is refused only for a new place. In this case nothing has changed.
        ensures err { OnErr result (is_among self.old.places place ≡ false) }
        ensures same { OnErr result (self.new ≡ self.old) }
    {
        if !self.flags[place] {
            self.places.push(place)?;
            self.flags[place] = true;
        }
        Ok(())
    }

    /// Removes places from the end of the queue until at most `count` are left. Allocates nothing.
    /// The time is proportional to the number of removed places.
    pub fn shorten(&mut self, count: usize)
        ensures { self.new
            ≡ record { limit = self.old.limit; places = take count self.old.places } }
    {
        while count < self.places.len() {
            self.drop_last();
        }
    }

    // Removes the last place, and clears its flag.
    fn drop_last(&mut self)
        requires { 0 < length self.old.places }
        ensures { self.new ≡ record {
          limit = self.old.limit;
          places = take (length self.old.places - 1) self.old.places;
        } }
    {
        if let Some(place) = self.places.pop() {
            self.flags[place] = false;
        }
    }

    /// Returns all places of the queue, in the order in which they were added.
    pub fn into_vec(self) -> Vec<usize>
        ensures places { result.items ≡ self.places }
        ensures apart { AreApart self.limit result.items }
    {
        self.places
    }
}
