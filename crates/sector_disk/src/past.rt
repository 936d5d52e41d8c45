// A list for clauses only, without bytes at run time.
ghost use Rattle.std.specs.Prelude.{◌≡◌, List, [], ◌∷◌, ◌++◌};
ghost use Rattle.std.specs.Borrow.{ftrue};

use std::marker::{Model, PhantomData};

/// The items of the past, the oldest first. Only clauses read the list, and it has no bytes at run
/// time.
#[derive(Drop)]
pub struct Past<A> {
    of: PhantomData<A>,
    pub ghost items: { List A },
}

impl<A> Model for Past<A> {
    ghost also_owns = { λ _. ftrue };
}

impl<A> Past<A> {
    /// Makes an empty past.
    pub fn new() -> Past<A>
        ensures { result.items ≡ [] }
    {
        Past { of: PhantomData }
    }

    /// Returns the same past with `item` appended.
    pub fn and(&self, item: &A) -> Past<A>
        ensures { result.items ≡ self.now.items ++ item.now ∷ [] }
    {
        Past { of: PhantomData }
    }

    /// Returns the same past.
    pub fn copy(&self) -> Past<A>
        ensures { result.items ≡ self.now.items }
    {
        Past { of: PhantomData }
    }
}
