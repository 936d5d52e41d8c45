// Searches and counts the names that a command borrows.

ghost use Rattle.std.specs.Prelude.{◌≡◌, map, length, nat_lt};
ghost use Rattle.states.specs.Limits.{most_preloads};
ghost use Rattle.states.specs.State.{has_name};
ghost use Rattle.requests.specs.Tests.{has_repeat};

use states::MOST_PRELOADS;

/// Returns whether `name` is one of the names.
fn has_name(names: &[&[u8]], name: &[u8]) -> bool
    ensures { result ≡ has_name (map (λ n. n.now) names.now) name.now }
{
    names.iter().any(|n| name == *n)
}

/// Returns whether there are more names than the maximum number of preloads.
pub fn are_too_many(names: &[&[u8]]) -> bool
    ensures { result ≡ nat_lt most_preloads (length (map (λ n. n.now) names.now)) }
{
    names.len() > MOST_PRELOADS
}

/// Returns whether a name occurs more than once.
pub fn has_repeat(names: &[&[u8]]) -> bool
    ensures { result ≡ has_repeat (map (λ n. n.now) names.now) }
{
    match names {
        [] => false,
        [name, others @ ..] => has_name(others, name) || has_repeat(others),
    }
}
