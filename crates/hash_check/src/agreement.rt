// Compares strings from their last bytes.

ghost use Rattle.std.specs.Prelude.{◌≡◌, ◌≤◌, ℕ, length, take, reverse};
ghost use Rattle.std.specs.Cmp.Lexicographic.{slice_cmp};
ghost use Rattle.std.specs.Ordering.{nat_cmp};

use std::cmp::Ordering;

/// Returns the number of bytes at their ends that `a` and `b` have in common.
pub(crate) fn common_end(a: &[u8], b: &[u8]) -> usize
    ensures first { result ≤ length a.now }
    ensures second { result ≤ length b.now }
    ensures agree { take result (reverse a.now) ≡ take result (reverse b.now) }
    ensures most { (n : ℕ) → n ≤ length a.now → n ≤ length b.now
        → take n (reverse a.now) ≡ take n (reverse b.now) → n ≤ result }
{
    let shorter = a.len().min(b.len());
    for i in 0..shorter {
        if a[a.len() - 1 - i] != b[b.len() - 1 - i] {
            return i;
        }
    }
    shorter
}

/// Returns the order of two strings that are compared byte by byte, beginning with their last
/// bytes.
pub(crate) fn compare_ends(a: &[u8], b: &[u8]) -> Ordering
    ensures { result ≡ slice_cmp nat_cmp (reverse a.now) (reverse b.now) }
{
    if a == b {
        Ordering::Equal
    } else {
        a.iter().rev().cmp(b.iter().rev())
    }
}
