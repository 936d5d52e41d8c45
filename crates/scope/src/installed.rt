// Finds an installed library by its name.

ghost use Rattle.std.specs.Prelude.{◌≡◌, ◌<◌, ◌≤◌, length, IfOk, IfSome};
ghost use Rattle.std.specs.List.{IsDistinct};
ghost use Rattle.std.specs.Str.{bytes_eq};
ghost use Rattle.scope.specs.LoadOrder.{names_of, place_of};

use crate::library::Library;
use indexmap::IndexSet;
use std::alloc::{AllocError, Global};
use std::marker::Model;

/// The names of installed libraries, in a form that can be searched fast. In contracts, the value
/// is the list of the names in the order of the libraries.
#[derive(Drop)]
pub(crate) struct Installed<'a> {
    names: IndexSet<&'a [u8]>,
}

impl<'a> Model for Installed<'a> {
    ghost use Rattle.std.specs.Prelude.{List, ℕ, ◌<◌, ◌^◌, length, map};

    ghost Value = { List (List ℕ) };

    ghost view = { λ t. map (λ n. n.now) t.names.keys };

    ghost invariant = { λ t. length t.names.keys < 2 ^ 64 };
}

impl<'a> Installed<'a> {
    /// Makes the searchable form of the libraries' names.
    pub(crate) fn new(
        alloc: Global,
        libraries: &'a [Library<'a>],
    ) -> Result<Installed<'a>, AllocError>
        requires { IsDistinct bytes_eq (names_of libraries.now) }
        ensures { IfOk result (λ installed. installed ≡ names_of libraries.now) }
    {
        let mut names = IndexSet::with_capacity(alloc, libraries.len())?;
        for library in libraries {
            names.insert(library.name())?;
        }
        Ok(Installed { names })
    }

    /// Returns the place of the library with the name `name`, if there is one. The first library is
    /// at place 1.
    pub(crate) fn place_of(&self, name: &[u8]) -> Option<usize>
        ensures place { result ≡ place_of self.now name.now }
        ensures within { IfSome result (λ place. place ≤ length self.now) }
    {
        match self.names.get_index_of(name) {
            Some(i) => Some(i + 1),
            None => None,
        }
    }
}
