ghost use Rattle.std.specs.Prelude.{◌≡◌, ◌↔◌, ◌-◌, ◌≤◌, ◌++◌, IsTrue, AllPairs, false};
ghost use Rattle.std.specs.Prelude.{length, replicate};
ghost use Rattle.roots.specs.Fields.{ListsSectors};

use extents::ROOT_SECTORS;

/// Returns whether no value occurs twice. The number of steps grows with the square of the list's
/// length.
pub(crate) fn are_distinct<T: PartialEq>(values: &[T]) -> bool
    ensures { IsTrue result ↔ AllPairs (λ a b. T.eq a b ≡ false) values.now }
{
    for (i, value) in values.iter().enumerate() {
        if values[..i].contains(value) {
            return false;
        }
    }
    true
}

/// Returns an array of `N` places: first `values`, and then `unused` in each remaining place.
pub(crate) fn placed<T: Copy, const N: usize>(values: &[T], unused: T) -> [T; N]
    requires { length values.now ≤ N }
    ensures { result ≡ values.now ++ replicate (N - length values.now) unused }
{
    let mut places = [unused; N];
    places[..values.len()].copy_from_slice(values);
    places
}

/// Returns whether the first `count` places have different sectors, which lie after the roots and
/// before `end`, and all other places are zero.
pub(crate) fn lists_sectors(places: &[u32], count: u16, end: u32) -> bool
    ensures { IsTrue result ↔ ListsSectors (length places.now) count end places.now }
{
    let count = usize::from(count);
    if count > places.len() {
        return false;
    }
    let (used, rest) = places.split_at(count);
    used.iter()
        .all(|sector| ROOT_SECTORS <= *sector && *sector < end)
        && are_distinct(used)
        && rest.iter().all(|sector| *sector == 0)
}
