// Numbers of libraries.

ghost use Rattle.std.specs.Prelude.{◌≡◌, ◌↔◌, ◌<◌, IsTrue, AllPairs, true, false, nat_eq};
ghost use Rattle.std.specs.List.{All, IsDistinct};

/// Returns whether no value occurs twice. Compares each value with those before it.
fn differ<T: PartialEq>(values: &[T]) -> bool
    ensures { IsTrue result ↔ AllPairs (λ a b. T.eq a b ≡ false) values.now }
{
    for (i, value) in values.iter().enumerate() {
        if values[..i].contains(value) {
            return false;
        }
    }
    true
}

/// Returns whether no two of the numbers are equal.
fn are_distinct(numbers: &[usize]) -> bool
    ensures { result ≡ true → IsDistinct nat_eq numbers.now }
{
    differ(numbers)
}

/// Returns whether the numbers are distinct and less than `count`, the number of libraries.
pub fn are_preloads(numbers: &[usize], count: usize) -> bool
    ensures below { result ≡ true → All (λ p. p < count) numbers.now }
    ensures distinct { result ≡ true → IsDistinct nat_eq numbers.now }
{
    numbers.iter().all(|number| *number < count) && are_distinct(numbers)
}
