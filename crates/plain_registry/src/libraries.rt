// Libraries that may be bound together.

ghost use Rattle.std.specs.Prelude.{◌≡◌, IsTrue, AllPairs, false};
ghost use Rattle.std.specs.List.{IsAnyAnswer, IsDistinct, list_any};
ghost use Rattle.std.specs.Str.{bytes_eq};
ghost use Rattle.scope.specs.LoadOrder.{names_of};

use scope::Library;

/// Returns whether one of the libraries has this name.
fn has_name(libraries: &[Library<'_>], name: &[u8]) -> bool
    ensures cases { IsAnyAnswer (λ l b. bytes_eq l.name name.now ≡ b) libraries.now result }
    ensures value { result ≡ list_any (λ l. bytes_eq l.name name.now) libraries.now }
{
    libraries.iter().any(|library| library.name() == name)
}

/// Returns whether no two libraries have the same name. Compares the name of each library with
/// those before it.
fn differ(libraries: &[Library<'_>]) -> bool
    ensures { IsTrue result
        → AllPairs (λ a b. bytes_eq a.name b.name ≡ false) libraries.now }
{
    for (i, library) in libraries.iter().enumerate() {
        if has_name(&libraries[..i], library.name()) {
            return false;
        }
    }
    true
}

/// Returns whether no two libraries have the same name.
pub fn have_distinct_names(libraries: &[Library<'_>]) -> bool
    ensures { IsTrue result → IsDistinct bytes_eq (names_of libraries.now) }
{
    differ(libraries)
}
