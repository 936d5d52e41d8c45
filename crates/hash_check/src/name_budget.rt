// A limit for the number of bytes of names that are read one by one.

ghost use Rattle.std.specs.Prelude.{◌≡◌, ◌≤◌, ◌↔◌, ◌-◌, IsTrue};

use std::marker::Model;

/// The number of bytes of names that may still be read one by one. If no name is a tail of another,
/// all names together have at most as many bytes as their string tables. So many names share bytes
/// if the names have more than twice as many bytes as the string tables, plus 64 KiB.
#[derive(Drop)]
pub struct NameBudget {
    left: usize,
}

impl Model for NameBudget {
    ghost use Rattle.std.specs.Prelude.{ℕ};

    ghost Value = { ℕ };

    ghost view = { λ r. r.left };
}

impl NameBudget {
    /// Makes a budget for the names of string tables that have `size` bytes.
    pub fn new(size: usize) -> NameBudget
        ensures { size ≤ result }
    {
        let left = size.saturating_mul(2).saturating_add(65_536);
        NameBudget { left }
    }

    /// Subtracts `length`, the length of a name, from the budget. Returns whether the budget was
    /// large enough.
    pub fn take(&mut self, length: usize) -> bool
        ensures fits { IsTrue result ↔ length ≤ self.old }
        ensures left { self.new ≡ self.old - length }
    {
        let fits = length <= self.left;
        self.left = self.left.saturating_sub(length);
        fits
    }
}
