// The exported symbols of an object, with their names.

ghost use Rattle.std.specs.Prelude.{◌≡◌, ◌≢◌, [], IfOk};
ghost use Rattle.hash_check.specs.inside.Names.{AreExports, IsWhole};

use crate::export::exported_symbols;
use crate::name::Name;
use crate::names::names_of;
use elf_dynamic::Object;
use std::alloc::{AllocError, Global};

/// Exported symbols of an object, with their names. The list has all exported symbols, or it is
/// empty. If it is empty, the object exports fewer than two symbols, and no memory has been
/// allocated for the list yet.
#[derive(Drop)]
pub(crate) struct Exports<'a> {
    pub(crate) symbols: Vec<u32>,
    pub(crate) names: Vec<Name<'a>>,
}

impl<'a> Exports<'a> {
    /// Returns an empty list of exports.
    pub(crate) fn none(alloc: Global, object: &Object<'a>) -> Exports<'a>
        ensures none { result.symbols.items ≡ [] }
        ensures exports { AreExports object.now result.symbols.items result.names.items }
    {
        Exports {
            symbols: Vec::new(alloc),
            names: Vec::new(alloc),
        }
    }

    /// Returns all exported symbols with their names. If `self` is empty, makes the lists.
    pub(crate) fn whole(self, alloc: Global, object: &Object<'a>) -> Result<Exports<'a>, AllocError>
        requires exports { AreExports object.now self.symbols.items self.names.items }
        requires whole { self.symbols.items ≢ [] → IsWhole object.now self.symbols.items }
        ensures exports { IfOk result (λ all.
            AreExports object.now all.symbols.items all.names.items) }
        ensures whole { IfOk result (λ all. IsWhole object.now all.symbols.items) }
    {
        if !self.symbols.is_empty() {
            return Ok(self);
        }
        let symbols = exported_symbols(alloc, object)?;
        let names = names_of(alloc, object, &symbols)?;
        Ok(Exports { symbols, names })
    }
}
